//! The history keeps the order in which calls really happened.
ghost use Rattle.mz_call_laws.specs.Members.{Has};
ghost use Rattle.mz_call_laws.specs.RealTime.{IsGiven, IsPlaced, IsSameRead, StandsBefore, is_of_round, submitted_since};
ghost use Rattle.mz_books.specs.Answer.{as_of};
ghost use Rattle.mz_books.specs.Calls.{Call, calls, is_waiting};
ghost use Rattle.mz_books.specs.History.{history};
ghost use Rattle.mz_books.specs.Holds.{transaction};
ghost use Rattle.mz_books.specs.Legal.{Legal};
ghost use Rattle.mz_log.specs.Log.{Log};
ghost use Rattle.mz_log.specs.declared.entry.Entry.TheVariants.{Instant, Read};
ghost use Rattle.mz_statement.specs.declared.statement.Statement.{Statement};
ghost use Rattle.std.specs.Prelude.{◌≡◌, ℕ, ◌∷◌, ◌++◌, None, Some, false, true};

/// A call that has its reply keeps it, and its time, in every longer legal log. Takes no memory.
pub fn replies_stay()
    ensures { (log since : Log) (call : Call) → Legal (since ++ log)
        → Has call (calls log) → is_waiting call ≡ false → Has call (calls (since ++ log)) }
{}

/// A read keeps its time: in each longer legal log the call of its session and number is that read,
/// with its peek and its time, whether it has its reply or waits for its rows. Takes no memory.
pub fn reads_keep_their_times()
    ensures { (log since : Log) (read call : Call) (peek : ℕ) → Legal (since ++ log)
        → Has read (calls log) → read.peek ≡ Some peek → Has call (calls (since ++ log))
        → call.stored.session ≡ read.stored.session → call.stored.call ≡ read.stored.call
        → IsSameRead read call }
{}

/// A call that had its reply before another was submitted stands before it in the history, once
/// that one is placed at the newest time: a round applied it, or it is a read or a statement
/// carried out at once, at the read time. Takes no memory.
pub fn history_keeps_real_time()
    ensures { (log since : Log) (first second : Call) → Legal (since ++ log)
        → Has first (calls log) → is_waiting first ≡ false
        → Has second (submitted_since log since) → IsPlaced log since second
        → StandsBefore first second (history (since ++ log)) }
{}

/// Which calls are placed so: each to which a round replied, each read that is made outside a
/// transaction and names no time, and each statement that is carried out at once outside a
/// transaction; and what is placed stays so. A read of an earlier time isn't, nor is a call that is
/// refused or cancelled. Takes no memory.
pub fn calls_are_placed()
    ensures commands { (log since : Log) (call : Call) → Legal (since ++ log)
        → Has call (submitted_since log since) → is_of_round call.stored.reply ≡ true
        → IsPlaced log since call }
    ensures reads { (log since : Log) (session call peek time : ℕ) (statement : Statement)
        (collection : ℕ)
        → Legal (Read session call peek time statement collection ∷ (since ++ log))
        → transaction (since ++ log) session ≡ None → as_of statement ≡ None
        → IsGiven log (Read session call peek time statement collection ∷ since)
        session call time }
    ensures instants { (log since : Log) (session call time : ℕ) (statement : Statement)
        → Legal (Instant session call statement time ∷ (since ++ log))
        → transaction (since ++ log) session ≡ None
        → IsGiven log (Instant session call statement time ∷ since) session call time }
    ensures stays { (log since more : Log) (session number time : ℕ)
        → IsGiven log since session number time → IsGiven log (more ++ since) session number time }
{}
