//! Reads: their plans, and the rows that their peeks wait for.
ghost use Rattle.std.specs.Prelude.{◌≡◌, ℕ, ◌∷◌, Contains, Some};
ghost use Rattle.mz_statement.specs.declared.statement.Statement.{Statement};
ghost use Rattle.mz_plan.specs.declared.command.PendingPeek.{PendingPeek};
ghost use Rattle.mz_log.specs.declared.entry.Entry.TheVariants.{Read};
ghost use Rattle.mz_books.specs.Calls.{Call, calls};
ghost use Rattle.mz_log.specs.CarriedOut.{Rows};
ghost use Rattle.mz_books.specs.History.{IsToldIn};
ghost use Rattle.mz_books.specs.Holds.{pending};
ghost use Rattle.mz_books.specs.Legal.{Legal};
ghost use Rattle.mz_log.specs.Log.{Log};
ghost use Rattle.mz_books.specs.Owed.{peek_rows};
ghost use Rattle.mz_books.specs.States.{state_at};
ghost use Rattle.mz_replay_laws.specs.Reads.{HasPlan};

/// The plan of a read that was accepted is that of its query at its own time. It reads at most as
/// many tables as a query may, and is bounded over the tables at that time, which is what an
/// evaluation asks. Takes no memory.
#[tactic(auto, using(crate::proofs::ReadPlans::read_plan))]
pub fn reads_have_their_plans()
    ensures { (log : Log) (session call peek time : ℕ) (statement : Statement) (collection : ℕ)
        → Legal (Read session call peek time statement collection ∷ log)
        → HasPlan log session time statement }
{}

/// The rows that a pending peek waits for, which are those of its collection or index at its time,
/// are the rows that its call's query is told in the state at that time, also once tables and
/// indexes that it reads were dropped. Takes no memory.
#[tactic(auto, using(crate::proofs::PeekTold::peek_told))]
pub fn peeks_wait_for_their_rows()
    ensures { (log : Log) → Legal log → (waiting : PendingPeek) (call : Call)
        → Contains (pending log) waiting → Contains (calls log) call → call.peek ≡ Some waiting.peek
        → IsToldIn (state_at log waiting.time) call.cluster call.statement
        (Rows (peek_rows log waiting)) }
{}
