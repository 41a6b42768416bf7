//! That good logs stay good.
ghost use Rattle.std.specs.Prelude.{◌≡◌, []};
ghost use Rattle.mz_books.specs.Legal.{Legal, MayFollow};
ghost use Rattle.mz_books.specs.Owed.{event, owed};
ghost use Rattle.mz_books.specs.Safe.{Good};
ghost use Rattle.mz_log.specs.Log.{Log};
ghost use Rattle.mz_log.specs.declared.entry.Entry.{Entry};

/// The log in which nothing has happened is good. Takes no memory.
#[tactic(auto, using(crate::proofs::GoodLogs::empty_good))]
pub fn the_empty_log_is_good()
    ensures { Good [] }
{}

/// A legal log that owes nothing is good: it replays, and no since and nothing that a replica was told passes a held or
/// pending time. Takes no memory.
#[tactic(auto, using(crate::proofs::GoodLogs::legal_good))]
pub fn legal_logs_are_good()
    ensures { (log : Log) → Legal log → owed log ≡ [] → Good log }
{}

/// An entry that may follow a good log leaves a good one, with all that it calls for. Takes no memory.
#[tactic(auto, using(crate::proofs::GoodLogs::event_good))]
pub fn good_logs_stay_good()
    ensures { (log : Log) (entry : Entry) → Good log → MayFollow log entry
        → Good (event log entry) }
{}
