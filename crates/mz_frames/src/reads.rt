//! Reads: the rows that pending peeks wait for.
ghost use Rattle.std.specs.Prelude.{◌≡◌, ℕ, ◌∷◌, ◌++◌, Contains, Ok, map};
ghost use Rattle.std.specs.FinMap.{entries};
ghost use Rattle.std.specs.List.{AllByRecursion as Each};
ghost use Rattle.mz_bag.specs.Weighted.{bag_of};
ghost use Rattle.mz_statement.specs.declared.statement.Statement.{Statement};
ghost use Rattle.mz_plan.specs.declared.command.PendingPeek.{PendingPeek};
ghost use Rattle.mz_plan.specs.declared.plan.Plan.{Plan};
ghost use Rattle.mz_log.specs.declared.entry.Entry.{Entry};
ghost use Rattle.mz_log.specs.declared.entry.Entry.TheVariants.{Read};
ghost use Rattle.mz_log.specs.CarriedOut.{rows_of};
ghost use Rattle.mz_log.specs.Log.{Log};
ghost use Rattle.mz_books.specs.Holds.{pending};
ghost use Rattle.mz_books.specs.Legal.{Legal};
ghost use Rattle.mz_books.specs.Owed.{peek_rows};
ghost use Rattle.mz_books.specs.Rounds.{read_time};
ghost use Rattle.mz_books.specs.States.{newest_state, query_plan, scope_of, state_at};

/// A pending peek waits for the rows for which it waited, however the log grows. Takes no memory.
pub fn peeks_keep_their_rows()
    ensures any_later { (log later : Log) → Legal (later ++ log) → (waiting : PendingPeek)
        → Contains (pending log) waiting
        → peek_rows (later ++ log) waiting ≡ peek_rows log waiting }
    ensures each { (log : Log) (entry : Entry) → Legal (entry ∷ log)
        → Each (λ waiting. peek_rows (entry ∷ log) waiting ≡ peek_rows log waiting) (pending log) }
    ensures all { (log : Log) (entry : Entry) → Legal (entry ∷ log)
        → map (peek_rows (entry ∷ log)) (pending log) ≡ map (peek_rows log) (pending log) }
{}

/// The peek of a read waits for the rows that the plan of its query has in the state at its time; at
/// the read time, in the newest state. Takes no memory.
pub fn a_new_peek_has_the_rows_of_its_plan()
    ensures at_its_time { (log : Log) (session call peek time : ℕ) (statement : Statement)
        (collection : ℕ) (plan : Plan)
        → Legal (Read session call peek time statement collection ∷ log)
        → query_plan (scope_of log session) statement ≡ Ok plan
        → peek_rows (Read session call peek time statement collection ∷ log) (record {
          peek = peek;
          session = session;
          call = call;
          collection = collection;
          time = time;
        })
        ≡ entries (bag_of (rows_of (state_at log time) plan)) }
    ensures newest { (log : Log) (session call peek time : ℕ) (statement : Statement)
        (collection : ℕ) (plan : Plan)
        → Legal (Read session call peek time statement collection ∷ log)
        → query_plan (scope_of log session) statement ≡ Ok plan → time ≡ read_time log
        → peek_rows (Read session call peek time statement collection ∷ log) (record {
          peek = peek;
          session = session;
          call = call;
          collection = collection;
          time = time;
        })
        ≡ entries (bag_of (rows_of (newest_state log) plan)) }
{}
