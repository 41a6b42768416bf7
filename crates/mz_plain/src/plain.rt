//! What the plain core keeps.
ghost use Rattle.std.specs.Prelude.{◌≡◌, IfOk, []};
ghost use Rattle.mz_plain.specs.Stands.{kept, Stands};

use indexmap::IndexSet;
use mz_core::{FinishedRead, Waiting};
use mz_kept::Session;
use mz_oracle::{Oracle, Rounds};
use mz_plan::{MadePlans, TableBags};
use mz_seq::Seq;
use mz_value::Name;
use std::alloc::{AllocError, Global};

/// What is kept: sessions, rounds, what the sequential object has, and the reads that wait with their rows.
#[derive(Drop)]
pub struct Plain {
    /// Where what is kept grows.
    pub(crate) alloc: Global,
    /// The names of the sessions, in order of opening.
    pub(crate) names: IndexSet<Name>,
    /// The sessions, in the same order.
    pub(crate) sessions: Vec<Session>,
    /// How many calls all sessions have made.
    pub(crate) calls: u64,
    /// The times of rounds.
    pub(crate) oracle: Oracle,
    /// The commands that wait, and those of the open round.
    pub(crate) rounds: Rounds<Waiting>,
    /// The items and the rows of tables.
    pub(crate) seq: Seq,
    /// The plans of all indexes that were ever made, and while a query is evaluated a copy of the rows.
    pub(crate) tables: TableBags,
    /// The reads that wait, in order of their peeks, with their rows.
    pub(crate) reads: Vec<FinishedRead>,
    /// How many peeks were made.
    pub(crate) peeks: u64,
}

impl Plain {
    /// Nothing has happened.
    #[tactic(auto, using(mz_kept_laws::proofs::Starting::fresh_stands))]
    pub fn fresh(alloc: Global) -> Result<Plain, AllocError>
        ensures { IfOk result (λ plain. Stands plain []) }
    {
        let seq = Seq::fresh(alloc)?;
        Ok(Plain {
            alloc,
            names: IndexSet::new(alloc),
            sessions: Vec::new(alloc),
            calls: 0,
            oracle: Oracle::empty(),
            rounds: Rounds::fresh(alloc),
            seq,
            tables: TableBags {
                bags: Vec::new(alloc),
                plans: MadePlans::from_vec(Vec::new(alloc)),
            },
            reads: Vec::new(alloc),
            peeks: 0,
        })
    }

    /// The names of the sessions, in order of opening. Takes no memory. O(1).
    pub fn names(&self) -> &IndexSet<Name>
        ensures { result.now.keys ≡ (kept self.now).names }
    {
        &self.names
    }
}
