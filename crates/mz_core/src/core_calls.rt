//! What a script is carried out over.
ghost use Rattle.std.specs.Prelude.{◌≡◌, ◌==◌, ℕ, List, [], Some, true, length, IfOk, OnErr};
ghost use Rattle.mz_grammar.specs.Asked.{IsAsked};
ghost use Rattle.mz_log.specs.Log.{Log};
ghost use Rattle.mz_books.specs.Given.{Did, Does, begin_given, opening_given};
ghost use Rattle.mz_books.specs.Rounds.{open_round, queued};
ghost use Rattle.mz_books.specs.Sessions.{sessions};
ghost use Rattle.mz_script.specs.Built.{is_built_asked};
ghost use Rattle.mz_frames.specs.Turns.{IsTurn};
ghost use Rattle.mz_core.specs.Told.{IsNumberOf, IsOfLog, IsSpelled, RefusesEach, answered_by, begin_cause, begun_of, cause, done_or_none, finishing_given, reads_of, submitting_given};

use crate::{BeginFault, BegunRound, FinishedRead, RoundDone, Submitted};
use indexmap::IndexSet;
use mz_grammar::Asked;
use mz_refusal::CallFault;
use mz_value::Name;
use std::alloc::{AllocError, Global};

/// What a script is carried out over: sessions, rounds and reads. Each call does what the log that is stood for gives it.
pub trait Core: Sized + Drop {
    /// The logs that it stands for.
    ghost stands: { Self → Log → Type 0 };

    /// The names of sessions, in order of opening.
    ghost names: { Self → List (List ℕ) };

    /// Nothing has happened.
    fn fresh(alloc: Global) -> Result<Self, AllocError>
        ensures { IfOk result (λ core. stands core []) };

    /// The names of sessions, in order of opening. Takes no memory.
    fn names(&self) -> &IndexSet<Name>
        ensures { result.now.keys ≡ names self.now };

    /// Opens a session under a name, and gives its number. After an `Err` all is as before.
    fn open_session(&mut self, name: Name) -> Result<u64, CallFault>
        ensures { (log : Log) → stands self.old log
            → Does cause log (opening_given log name) result (stands self.new) };

    /// The session of this number says what asks for this, and is told what became of its call. After an `Err` all is as before.
    fn submit(&mut self, session: u64, asked: Asked) -> Result<Submitted, CallFault>
        requires of_log { IsOfLog stands self.old }
        requires session { IsNumberOf (length (names self.old)) session }
        requires asks { IsSpelled asked }
        requires built { is_built_asked asked ≡ true }
        ensures { (log : Log) (text : List ℕ) → stands self.old log → IsAsked text asked
            → Does cause log (submitting_given log session text asked) (answered_by Some result) (stands self.new) };

    /// Begins a round at what the clock says. Where no time is left for it, each command that waits is refused. Takes no memory.
    fn begin_round(&mut self, now: u64) -> Result<BegunRound, BeginFault>
        requires { IsOfLog stands self.old }
        ensures given { (log : Log) → stands self.old log → Does begin_cause log
            (begin_given log now (open_round log)) (answered_by begun_of result) (stands self.new) }
        ensures refused { (log : Log) → stands self.old log → RefusesEach (queued log) result };

    /// Applies the open round; None where none is open. After an `Err` all is as before.
    fn finish_round(&mut self) -> Result<Option<RoundDone>, AllocError>
        requires { IsOfLog stands self.old }
        ensures given { (log : Log) → stands self.old log → IfOk result (λ done.
            Did log (finishing_given log (open_round log)) (done_or_none done) (stands self.new)) }
        ensures err { (log : Log) → stands self.old log → OnErr result (stands self.new log) };

    /// Gives each read that waits its rows, in order of peeks: a replica makes a turn. Takes no memory.
    fn finish_reads(&mut self) -> Vec<FinishedRead>
        requires { IsOfLog stands self.old }
        ensures reads { (log : Log) → stands self.old log → result.items ≡ reads_of log }
        ensures turn { (log later : Log) → stands self.old log → IsTurn log later → stands self.new later };

    /// Whether no command waits, in the open round or outside. Takes no memory.
    fn is_queue_empty(&self) -> bool
        ensures { (log : Log) → stands self.now log → result ≡ (length (queued log) == 0) };

    /// The names are those of each log that it stands for.
    ghost named: { (core : Self) (log : Log) → stands core log → names core ≡ sessions log };
}
