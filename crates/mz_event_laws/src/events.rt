//! That each event of a legal log can be brought to its end.
ghost use Rattle.std.specs.Prelude.{◌≡◌, List, [], ◌∷◌};
ghost use Rattle.mz_books.specs.Legal.{Legal, MayFollow};
ghost use Rattle.mz_books.specs.Owed.{event, owed};
ghost use Rattle.mz_log.specs.Log.{Log};
ghost use Rattle.mz_log.specs.declared.entry.Entry.{Entry};

/// The first entry that a legal log owes may follow it. Takes no memory.
#[tactic(auto, using(crate::proofs::Owed::owed_follows))]
pub fn owed_may_follow()
    ensures { (log : Log) (entry : Entry) (later : List Entry) → Legal log
        → owed log ≡ entry ∷ later → MayFollow log entry }
{}

/// Where a legal log owes nothing, an entry that may follow it makes a legal log with all that it
/// calls for, which owes nothing either. Takes no memory.
pub fn events_are_legal()
    ensures legal { (log : Log) (entry : Entry) → Legal log → owed log ≡ []
        → MayFollow log entry → Legal (event log entry) }
    ensures whole { (log : Log) (entry : Entry) → Legal log → owed log ≡ []
        → MayFollow log entry → owed (event log entry) ≡ [] }
{}
