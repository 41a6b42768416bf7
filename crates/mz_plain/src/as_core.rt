//! The plain core is a core.
ghost use Rattle.mz_plain.specs.Stands.{kept, Stands};

use crate::Plain;
use indexmap::IndexSet;
use mz_core::{BeginFault, BegunRound, Core, FinishedRead, RoundDone, Submitted};
use mz_grammar::Asked;
use mz_refusal::CallFault;
use mz_value::Name;
use std::alloc::{AllocError, Global};

impl Core for Plain {
    ghost stands = { Stands };

    ghost names = { λ plain. (kept plain).names };

    fn fresh(alloc: Global) -> Result<Plain, AllocError> {
        Plain::fresh(alloc)
    }

    fn names(&self) -> &IndexSet<Name> {
        self.names()
    }

    fn open_session(&mut self, name: Name) -> Result<u64, CallFault> {
        self.open_session(name)
    }

    fn submit(&mut self, session: u64, asked: Asked) -> Result<Submitted, CallFault> {
        self.submit(session, asked)
    }

    fn begin_round(&mut self, now: u64) -> Result<BegunRound, BeginFault> {
        self.begin_round(now)
    }

    fn finish_round(&mut self) -> Result<Option<RoundDone>, AllocError> {
        self.finish_round()
    }

    fn finish_reads(&mut self) -> Vec<FinishedRead> {
        self.finish_reads()
    }

    fn is_queue_empty(&self) -> bool {
        self.is_queue_empty()
    }

    ghost named = { λ plain log stands. stands.sessions.names };
}
