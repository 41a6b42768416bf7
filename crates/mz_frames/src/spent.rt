//! Commands that are refused because no time is left: what that leaves.
ghost use Rattle.std.specs.Prelude.{◌≡◌, ℕ, List};
ghost use Rattle.mz_plan.specs.declared.command.PendingPeek.{PendingPeek};
ghost use Rattle.mz_log.specs.Log.{Log};
ghost use Rattle.mz_books.specs.Clusters.{clusters};
ghost use Rattle.mz_books.specs.Entries.{Queued, after};
ghost use Rattle.mz_books.specs.Given.{spent};
ghost use Rattle.mz_books.specs.Holds.{holds, holds_taken, peeks_made, pending, transaction};
ghost use Rattle.mz_books.specs.Owed.{peek_rows};
ghost use Rattle.mz_books.specs.Rounds.{ddl, last_time, open_round, read_time, rounds};
ghost use Rattle.mz_books.specs.Sessions.{is_closed, sessions};
ghost use Rattle.mz_books.specs.States.{newest_state};

/// Commands are refused because no time is left: sessions have the same names and transactions, and
/// none is closed by it. Takes no memory.
#[tactic(auto, using(crate::proofs::SpentLeaves::spent_sessions))]
pub fn a_refused_queue_leaves_sessions()
    ensures sessions { (log : Log) (last : ℕ) (commands : List Queued)
        → sessions (after (spent last commands) log) ≡ sessions log }
    ensures closed { (log : Log) (last : ℕ) (commands : List Queued) (session : ℕ)
        → is_closed (after (spent last commands) log) session ≡ is_closed log session }
    ensures transaction { (log : Log) (last : ℕ) (commands : List Queued) (session : ℕ)
        → transaction (after (spent last commands) log) session ≡ transaction log session }
{}

/// That leaves rounds, times and the newest state. Takes no memory.
#[tactic(auto, using(crate::proofs::SpentLeaves::spent_rounds))]
pub fn a_refused_queue_leaves_rounds()
    ensures open_round { (log : Log) (last : ℕ) (commands : List Queued)
        → open_round (after (spent last commands) log) ≡ open_round log }
    ensures rounds { (log : Log) (last : ℕ) (commands : List Queued)
        → rounds (after (spent last commands) log) ≡ rounds log }
    ensures last_time { (log : Log) (last : ℕ) (commands : List Queued)
        → last_time (after (spent last commands) log) ≡ last_time log }
    ensures read_time { (log : Log) (last : ℕ) (commands : List Queued)
        → read_time (after (spent last commands) log) ≡ read_time log }
    ensures ddl { (log : Log) (last : ℕ) (commands : List Queued)
        → ddl (after (spent last commands) log) ≡ ddl log }
    ensures state { (log : Log) (last : ℕ) (commands : List Queued)
        → newest_state (after (spent last commands) log) ≡ newest_state log }
{}

/// And it leaves peeks with their rows, clusters and holds. Takes no memory.
#[tactic(auto, using(crate::proofs::SpentLeaves::spent_holds_ones))]
pub fn a_refused_queue_leaves_reads()
    ensures pending { (log : Log) (last : ℕ) (commands : List Queued)
        → pending (after (spent last commands) log) ≡ pending log }
    ensures rows { (log : Log) (last : ℕ) (commands : List Queued) (waiting : PendingPeek)
        → peek_rows (after (spent last commands) log) waiting ≡ peek_rows log waiting }
    ensures clusters { (log : Log) (last : ℕ) (commands : List Queued)
        → clusters (after (spent last commands) log) ≡ clusters log }
    ensures peeks_made { (log : Log) (last : ℕ) (commands : List Queued)
        → peeks_made (after (spent last commands) log) ≡ peeks_made log }
    ensures holds { (log : Log) (last : ℕ) (commands : List Queued)
        → holds (after (spent last commands) log) ≡ holds log }
    ensures holds_taken { (log : Log) (last : ℕ) (commands : List Queued)
        → holds_taken (after (spent last commands) log) ≡ holds_taken log }
{}
