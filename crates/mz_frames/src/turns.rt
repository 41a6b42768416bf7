//! Turns: a replica is fed, and its packet gives all pending peeks their rows.
ghost use Rattle.std.specs.Prelude.{◌≡◌, ℕ, ◌==◌, [], None, length, if◌then◌else◌};
ghost use Rattle.std.specs.List.{list_any};
ghost use Rattle.mz_log.specs.Log.{Log};
ghost use Rattle.mz_books.specs.Calls.{calls};
ghost use Rattle.mz_books.specs.Clusters.{clusters};
ghost use Rattle.mz_books.specs.Holds.{holds, holds_taken, peeks_made, pending, transaction};
ghost use Rattle.mz_books.specs.Rounds.{ddl, last_time, open_round, queued, read_time, rounds};
ghost use Rattle.mz_books.specs.Sessions.{calls_made, is_closed, outstanding, seen, sessions};
ghost use Rattle.mz_books.specs.States.{newest_state};
ghost use Rattle.mz_frames.specs.Turns.{IsTurn};

/// A turn gives each pending peek its rows: none is pending then, and their sessions wait for no
/// call. Takes no memory.
pub fn a_turn_is_made()
    ensures pending { (log later : Log) → IsTurn log later → pending later ≡ [] }
    ensures outstanding { (log later : Log) → IsTurn log later → (other : ℕ)
        → outstanding later other
        ≡ if list_any (λ peek. peek.session == other) (pending log) then None
        else outstanding log other }
{}

/// Of what sessions have, a turn changes nothing else. Takes no memory.
#[tactic(auto, using(crate::proofs::TurnLeaves::turn_sessions))]
pub fn a_turn_leaves_sessions()
    ensures sessions { (log later : Log) → IsTurn log later → sessions later ≡ sessions log }
    ensures closed { (log later : Log) → IsTurn log later → (session : ℕ)
        → is_closed later session ≡ is_closed log session }
    ensures calls_made { (log later : Log) → IsTurn log later → (session : ℕ)
        → calls_made later session ≡ calls_made log session }
    ensures all_calls { (log later : Log) → IsTurn log later
        → length (calls later) ≡ length (calls log) }
    ensures seen { (log later : Log) → IsTurn log later → (session : ℕ)
        → seen later session ≡ seen log session }
    ensures transaction { (log later : Log) → IsTurn log later → (session : ℕ)
        → transaction later session ≡ transaction log session }
{}

/// Nor does it change rounds, the newest state, or what is held. Takes no memory.
#[tactic(auto, using(crate::proofs::TurnLeaves::turn_rounds, crate::proofs::TurnLeaves::turn_holds))]
pub fn a_turn_leaves_rounds()
    ensures queued { (log later : Log) → IsTurn log later → queued later ≡ queued log }
    ensures open_round { (log later : Log) → IsTurn log later
        → open_round later ≡ open_round log }
    ensures rounds { (log later : Log) → IsTurn log later → rounds later ≡ rounds log }
    ensures last_time { (log later : Log) → IsTurn log later → last_time later ≡ last_time log }
    ensures read_time { (log later : Log) → IsTurn log later → read_time later ≡ read_time log }
    ensures ddl { (log later : Log) → IsTurn log later → ddl later ≡ ddl log }
    ensures state { (log later : Log) → IsTurn log later
        → newest_state later ≡ newest_state log }
    ensures clusters { (log later : Log) → IsTurn log later → clusters later ≡ clusters log }
    ensures peeks_made { (log later : Log) → IsTurn log later
        → peeks_made later ≡ peeks_made log }
    ensures holds { (log later : Log) → IsTurn log later → holds later ≡ holds log }
    ensures holds_taken { (log later : Log) → IsTurn log later
        → holds_taken later ≡ holds_taken log }
{}
