//! Which calls of a log wait, and that rounds and peeks reply to these alone.
ghost use Rattle.mz_call_laws.specs.Fronts.{IsFrontOf};
ghost use Rattle.mz_call_laws.specs.Members.{Has, Pairwise};
ghost use Rattle.mz_call_laws.specs.Waiting.{AreApart, AskedBy, Awaited, IsCommandOf, IsMadeBefore, IsMadeWithin, IsReadOf, WaitedFor, awaited, commands_in, reads_in};
ghost use Rattle.mz_books.specs.Calls.{Call, calls, is_waiting};
ghost use Rattle.mz_books.specs.Holds.{peeks_made, pending};
ghost use Rattle.mz_books.specs.Legal.{Legal};
ghost use Rattle.mz_log.specs.Log.{Log};
ghost use Rattle.mz_books.specs.Entries.{Queued, is_reply_to};
ghost use Rattle.mz_books.specs.Rounds.{Round, open_round, queued};
ghost use Rattle.mz_log.specs.declared.entry.Entry.TheVariants.{Apply};
ghost use Rattle.mz_log.specs.declared.entry.Replied.{Replied};
ghost use Rattle.mz_plan.specs.declared.command.PendingPeek.{PendingPeek};
ghost use Rattle.std.specs.List.{AllByRecursion as Each};
ghost use Rattle.std.specs.Prelude.{◌≡◌, ◌∷◌, ℕ, List, Some, find, map, true};

/// The commands that a log has queued are those of its calls that wait for a round, in their order:
/// each is a waiting call with that statement, and each waiting call without a peek is queued.
/// Takes no memory.
pub fn queued_calls_wait()
    ensures queued { (log : Log) → commands_in (calls log) ≡ queued log }
    ensures is_call { (log : Log) (command : Queued)
        → Has command (queued log) → AskedBy command (calls log) }
    ensures is_queued { (log : Log) (call : Call) (command : Queued)
        → Has call (calls log) → IsCommandOf command call → Has command (queued log) }
{}

/// In a legal log the open round has the first of the queued commands; no two commands that wait
/// are of one session; and a waiting call that a round replies to is the command to which it
/// replies. Takes no memory.
pub fn rounds_reply_to_commands()
    ensures front { (log : Log) → Legal log → IsFrontOf (open_round log) (queued log) }
    ensures queued_apart { (log : Log) → Legal log → Pairwise AreApart (queued log) }
    ensures apart { (log : Log) (round : Round) → Legal log
        → open_round log ≡ Some round → Pairwise AreApart round.commands }
    ensures replied { (log : Log) (time : ℕ) (replies : List Replied)
        → Legal (Apply time replies ∷ log) → (call : Call) (told : Replied)
        → Has call (calls log) → is_waiting call ≡ true
        → find (is_reply_to call.stored.session call.stored.call) replies ≡ Some told
        → IsCommandOf
        (record { session = told.session; call = told.call; statement = told.statement }) call }
{}

/// In a legal log the pending peeks are those of the calls that wait for rows, in their order: each
/// has the call and the time of its read. Their numbers rise, and are among those of the peeks that
/// were made. Takes no memory.
pub fn pending_calls_wait()
    ensures pending { (log : Log) → Legal log → reads_in (calls log) ≡ map awaited (pending log) }
    ensures is_call { (log : Log) → Legal log → (waiting : PendingPeek)
        → Has waiting (pending log) → WaitedFor waiting (calls log) }
    ensures is_pending { (log : Log) → Legal log → (call : Call) (read : Awaited)
        → Has call (calls log) → IsReadOf read call → Has read (map awaited (pending log)) }
    ensures rises { (log : Log) → Legal log → Pairwise IsMadeBefore (pending log) }
    ensures within { (log : Log) → Legal log → Each (IsMadeWithin (peeks_made log)) (pending log) }
{}
