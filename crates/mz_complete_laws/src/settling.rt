//! That what waits is emptied.
ghost use Rattle.std.specs.Prelude.{◌≡◌, ℕ, ◌<◌, List, [], ◌∷◌};
ghost use Rattle.mz_books.specs.Entries.{after};
ghost use Rattle.mz_books.specs.Given.{spent};
ghost use Rattle.mz_books.specs.Holds.{pending};
ghost use Rattle.mz_books.specs.Legal.{Legal};
ghost use Rattle.mz_books.specs.Owed.{event};
ghost use Rattle.mz_books.specs.Rounds.{queued, read_time};
ghost use Rattle.mz_log.specs.Log.{Log};
ghost use Rattle.mz_log.specs.declared.entry.Entry.TheVariants.{Begin, Apply, Absorbed};
ghost use Rattle.mz_log.specs.declared.entry.Replied.{Replied};
ghost use Rattle.mz_stream_laws.specs.Taken.{HasTakenAll};

/// A round that is applied as soon as it was begun leaves no command that waits. Takes no memory.
pub fn rounds_at_once_empty_the_queue()
    ensures { (log : Log) (number time at : ℕ) (replies : List Replied)
        → Legal (Apply at replies ∷ (Begin number time ∷ log))
        → queued (Apply at replies ∷ (Begin number time ∷ log)) ≡ [] }
{}

/// Nor do the refusals of all that wait, where no time is left for a round. Takes no memory.
#[tactic(auto, using(crate::proofs::Emptied::spent_empties))]
pub fn refusals_empty_the_queue()
    ensures { (log : Log) (last : ℕ) → queued (after (spent last (queued log)) log) ≡ [] }
{}

/// A packet with all lines of a live replica of the main cluster, ready for a time past the read time, leaves no peek that
/// is pending, once all that it calls for has come. Takes no memory.
pub fn packets_past_the_read_time_leave_no_peek()
    ensures { (log : Log) (replica : List ℕ) (incarnation turn taken ready : ℕ)
        (frontiers : List (ℕ × ℕ)) → Legal log → HasTakenAll log replica incarnation taken
        → read_time log < ready
        → pending (event log (Absorbed replica incarnation turn taken ready frontiers)) ≡ [] }
{}
