//! Time goes on: rounds, the read time, and the times of reads.
ghost use Rattle.mz_call_laws.specs.Fronts.{IsAhead};
ghost use Rattle.mz_call_laws.specs.Members.{Has};
ghost use Rattle.mz_books.specs.Answer.{as_of};
ghost use Rattle.mz_books.specs.Calls.{Call, calls};
ghost use Rattle.mz_books.specs.Holds.{transaction};
ghost use Rattle.mz_books.specs.Legal.{Legal};
ghost use Rattle.mz_log.specs.Log.{Log};
ghost use Rattle.mz_books.specs.Rounds.{ddl, last_time, open_round, read_time};
ghost use Rattle.mz_books.specs.Sessions.{seen};
ghost use Rattle.mz_log.specs.declared.entry.Entry.TheVariants.{Apply, Read};
ghost use Rattle.mz_log.specs.declared.entry.Replied.{Replied};
ghost use Rattle.mz_statement.specs.declared.statement.Statement.{Statement};
ghost use Rattle.std.specs.Prelude.{◌≡◌, ℕ, ◌<◌, ◌≤◌, ◌∷◌, ◌++◌, List, None};

/// The read time never falls as a legal log grows, and is never past the last time that a round was
/// given. The open round is later than it, and so is each round that is applied. Takes no memory.
pub fn read_time_rises()
    ensures never_falls { (log since : Log) → Legal (since ++ log)
        → read_time log ≤ read_time (since ++ log) }
    ensures never_ahead { (log : Log) → Legal log → read_time log ≤ last_time log }
    ensures open { (log : Log) → Legal log
        → IsAhead (read_time log) (last_time log) (open_round log) }
    ensures applied { (log : Log) (time : ℕ) (replies : List Replied)
        → Legal (Apply time replies ∷ log) → read_time log < time }
{}

/// A read that is made outside a transaction and names no time is at the read time: so at no time
/// before the read time of any earlier log, and before no call of one, be it a write that was
/// acknowledged or another read. Takes no memory.
pub fn reads_are_fresh()
    ensures newest { (log : Log) (session call peek time : ℕ) (statement : Statement)
        (collection : ℕ) → Legal (Read session call peek time statement collection ∷ log)
        → transaction log session ≡ None → as_of statement ≡ None → time ≡ read_time log }
    ensures fresh { (log since : Log) (session call peek time : ℕ) (statement : Statement)
        (collection : ℕ)
        → Legal (Read session call peek time statement collection ∷ (since ++ log))
        → transaction (since ++ log) session ≡ None → as_of statement ≡ None
        → read_time log ≤ time }
    ensures behind_calls { (log since : Log) (session call peek time : ℕ) (statement : Statement)
        (collection : ℕ)
        → Legal (Read session call peek time statement collection ∷ (since ++ log))
        → transaction (since ++ log) session ≡ None → as_of statement ≡ None
        → (earlier : Call) → Has earlier (calls log) → earlier.stored.time ≤ time }
{}

/// Each read of a legal log, in a transaction or with a named time too, is at a time from what its
/// session has seen, and from the last CREATE or DROP, up to the read time. Takes no memory.
pub fn reads_are_in_range()
    ensures seen { (log : Log) (session call peek time : ℕ) (statement : Statement)
        (collection : ℕ) → Legal (Read session call peek time statement collection ∷ log)
        → seen log session ≤ time }
    ensures from_ddl { (log : Log) (session call peek time : ℕ) (statement : Statement)
        (collection : ℕ) → Legal (Read session call peek time statement collection ∷ log)
        → ddl log ≤ time }
    ensures readable { (log : Log) (session call peek time : ℕ) (statement : Statement)
        (collection : ℕ) → Legal (Read session call peek time statement collection ∷ log)
        → time ≤ read_time log }
{}
