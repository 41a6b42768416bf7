//! Rounds: what they change of what waits, and of what sessions have.
ghost use Rattle.std.specs.Prelude.{◌≡◌, ℕ, ◌==◌, List, [], ◌∷◌, ◌++◌, None, Some, drop, length, if◌then◌else◌};
ghost use Rattle.std.specs.List.{list_any};
ghost use Rattle.mz_log.specs.declared.entry.Entry.TheVariants.{Apply};
ghost use Rattle.mz_log.specs.declared.entry.Replied.{Replied};
ghost use Rattle.mz_log.specs.Log.{Log};
ghost use Rattle.mz_books.specs.Calls.{calls};
ghost use Rattle.mz_books.specs.Clusters.{cluster_of};
ghost use Rattle.mz_books.specs.Entries.{after};
ghost use Rattle.mz_books.specs.Given.{spent};
ghost use Rattle.mz_books.specs.Legal.{Legal};
ghost use Rattle.mz_books.specs.Owed.{owed};
ghost use Rattle.mz_books.specs.Rounds.{Round, last_time, open_round, queued};
ghost use Rattle.mz_books.specs.Sessions.{calls_made, outstanding, seen};
ghost use Rattle.mz_books.specs.States.{after_replies, newest_state, replies_to};

/// No time is left for a round, so each command that waits is refused: that is legal, no command
/// waits then, and their sessions wait for none; nothing else changes. Takes no memory.
#[tactic(auto, using(crate::proofs::Spending::spent_ones))]
pub fn the_queue_is_refused()
    ensures legal { (log : Log) → Legal log → owed log ≡ [] → open_round log ≡ None
        → Legal (after (spent (last_time log) (queued log)) log) }
    ensures owed { (log : Log) → Legal log → owed log ≡ [] → open_round log ≡ None
        → owed (after (spent (last_time log) (queued log)) log) ≡ [] }
    ensures queued { (log : Log) → Legal log → owed log ≡ [] → open_round log ≡ None
        → queued (after (spent (last_time log) (queued log)) log) ≡ [] }
    ensures outstanding { (log : Log) → Legal log → owed log ≡ [] → open_round log ≡ None
        → (other : ℕ) → outstanding (after (spent (last_time log) (queued log)) log) other
        ≡ if list_any (λ command. command.session == other) (queued log) then None
        else outstanding log other }
    ensures calls_made { (log : Log) → Legal log → owed log ≡ [] → open_round log ≡ None
        → (other : ℕ) → calls_made (after (spent (last_time log) (queued log)) log) other
        ≡ calls_made log other }
    ensures all_calls { (log : Log) → Legal log → owed log ≡ [] → open_round log ≡ None
        → length (calls (after (spent (last_time log) (queued log)) log)) ≡ length (calls log) }
    ensures seen { (log : Log) → Legal log → owed log ≡ [] → open_round log ≡ None
        → (other : ℕ) → seen (after (spent (last_time log) (queued log)) log) other
        ≡ seen log other }
{}

/// The open round is applied: at its own time, with the replies of the sequential object to its
/// commands, which lead the newest state on; those that wait behind them wait still. The sessions of its commands wait for none, and
/// have seen its time. No call is made. Takes no memory.
pub fn a_round_is_applied()
    ensures replies { (log : Log) (time : ℕ) (replies : List Replied) (round : Round)
        → Legal (Apply time replies ∷ log) → open_round log ≡ Some round
        → replies ≡ replies_to (cluster_of log) (newest_state log) round.commands }
    ensures time { (log : Log) (time : ℕ) (replies : List Replied) (round : Round)
        → Legal (Apply time replies ∷ log) → open_round log ≡ Some round → time ≡ round.time }
    ensures state { (log : Log) (time : ℕ) (replies : List Replied)
        → Legal (Apply time replies ∷ log)
        → newest_state (Apply time replies ∷ log)
        ≡ after_replies (cluster_of log) (newest_state log) replies }
    ensures queued { (log : Log) (time : ℕ) (replies : List Replied) (round : Round)
        → Legal (Apply time replies ∷ log) → open_round log ≡ Some round
        → queued (Apply time replies ∷ log) ≡ drop (length round.commands) (queued log) }
    ensures front { (log : Log) (time : ℕ) (replies : List Replied) (round : Round)
        → Legal (Apply time replies ∷ log) → open_round log ≡ Some round
        → queued log ≡ round.commands ++ queued (Apply time replies ∷ log) }
    ensures outstanding { (log : Log) (time : ℕ) (replies : List Replied)
        → Legal (Apply time replies ∷ log) → (other : ℕ)
        → outstanding (Apply time replies ∷ log) other
        ≡ if list_any (λ told. told.session == other) replies then None
        else outstanding log other }
    ensures of_commands { (log : Log) (time : ℕ) (replies : List Replied) (round : Round)
        → Legal (Apply time replies ∷ log) → open_round log ≡ Some round → (other : ℕ)
        → outstanding (Apply time replies ∷ log) other
        ≡ if list_any (λ command. command.session == other) round.commands then None
        else outstanding log other }
    ensures calls_made { (log : Log) (time : ℕ) (replies : List Replied) (other : ℕ)
        → calls_made (Apply time replies ∷ log) other ≡ calls_made log other }
    ensures all_calls { (log : Log) (time : ℕ) (replies : List Replied)
        → length (calls (Apply time replies ∷ log)) ≡ length (calls log) }
    ensures seen { (log : Log) (time : ℕ) (replies : List Replied)
        → Legal (Apply time replies ∷ log) → (other : ℕ)
        → seen (Apply time replies ∷ log) other
        ≡ if list_any (λ told. told.session == other) replies then time else seen log other }
{}
