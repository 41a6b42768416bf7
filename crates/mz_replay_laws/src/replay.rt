//! A legal log tells what the sequential object would have told.
ghost use Rattle.std.specs.Prelude.{◌≡◌, ℕ, Contains, IfSome, IsSome};
ghost use Rattle.mz_books.specs.Calls.{Call, calls};
ghost use Rattle.mz_books.specs.History.{IsReplyFrom, Replays, history};
ghost use Rattle.mz_books.specs.Legal.{Legal};
ghost use Rattle.mz_log.specs.Log.{Log};
ghost use Rattle.mz_log.specs.Sequential.{opening};
ghost use Rattle.mz_books.specs.States.{state_at};
ghost use Rattle.mz_replay_laws.specs.Replays.{after_calls, calls_until};

/// The history of a legal log replays: done one after another on the sequential object, in the
/// order of their times and those of one time in the order in which they were submitted, the calls
/// get the replies that the log gave them. A call that no round applied changes nothing. Takes no
/// memory.
#[tactic(auto, using(crate::proofs::LegalReplay::legal_replay))]
pub fn legal_replays()
    ensures { (log : Log) → Legal log → Replays log }
{}

/// The state at a time is what the calls of the history up to that time leave, done one after
/// another. Takes no memory.
#[tactic(auto, using(crate::proofs::LegalReplay::state_replayed))]
pub fn states_are_replayed()
    ensures { (log : Log) (time : ℕ) → Legal log
        → after_calls opening (calls_until time (history log)) ≡ state_at log time }
{}

/// A read that has its reply has what it may have in the state at its own time: the rows that its
/// query is told there, or that it was cancelled. Takes no memory.
#[tactic(auto, using(crate::proofs::LegalReplay::read_replied))]
pub fn reads_have_their_rows()
    ensures { (log : Log) (call : Call) → Legal log → Contains (calls log) call → IsSome call.peek
        → IfSome call.stored.reply (IsReplyFrom (state_at log call.stored.time) call) }
{}
