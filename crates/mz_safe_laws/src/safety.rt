//! That nothing told passes a held time, how far sinces may be, and that reports are honest.
ghost use Rattle.std.specs.List.{AllByRecursion as Each};
ghost use Rattle.std.specs.Prelude.{ℕ, ◌+◌, ◌≤◌, ◌++◌};
ghost use Rattle.mz_books.specs.Collections.{collections};
ghost use Rattle.mz_books.specs.Holds.{holds, pending};
ghost use Rattle.mz_books.specs.Legal.{Legal};
ghost use Rattle.mz_log.specs.Log.{Log};
ghost use Rattle.mz_books.specs.Rounds.{read_time};
ghost use Rattle.mz_books.specs.Safe.{AreHonest, Safe};
ghost use Rattle.mz_books.specs.Since.{settled, since};
ghost use Rattle.mz_books.specs.Streams.{streams};
ghost use Rattle.mz_rules.specs.Frontiers.{IsWithin};
ghost use Rattle.mz_rules.specs.Streams.{told};
ghost use Rattle.mz_time.specs.Frontier.{Le};
ghost use Rattle.mz_time.specs.declared.frontier.Frontier.TheVariants.{At};

/// No since falls as a legal log grows. Takes no memory.
#[tactic(auto, using(crate::proofs::Sound::sinces_rise))]
pub fn sinces_rise()
    ensures { (log later : Log) → Legal (later ++ log) → (number : ℕ)
        → Le (since log number) (since (later ++ log) number) }
{}

/// No since is past a hold or a pending peek, nor is anything that an incarnation was told, live or lost: as the time as
/// of which a collection is made, or as what of it may be forgotten. Takes no memory.
pub fn held_times_stand()
    ensures holds { (log : Log) → Legal log
        → Each (λ hold. Le (since log hold.collection) (At hold.time)) (holds log) }
    ensures peeks { (log : Log) → Legal log
        → Each (λ peek. Le (since log peek.collection) (At peek.time)) (pending log) }
    ensures told_holds { (log : Log) → Legal log
        → Each (λ s. Each (λ hold. Le (told hold.collection s.commands) (At hold.time))
        (holds log)) (streams log) }
    ensures told_peeks { (log : Log) → Legal log
        → Each (λ s. Each (λ peek. Le (told peek.collection s.commands) (At peek.time))
        (pending log)) (streams log) }
    ensures told { (log : Log) → Legal log
        → Each (λ s. (number : ℕ) → Le (told number s.commands) (since log number))
        (streams log) }
{}

/// A since is at or before that of each reader, from the as-of on, and within the read time; no upper is past the time
/// after the read time. Takes no memory.
pub fn sinces_are_in_range()
    ensures readers { (log : Log) → Legal log
        → Each (λ s. Each (λ input. Le (since log input) s.since) s.collection.inputs)
        (settled log) }
    ensures low { (log : Log) → Legal log
        → Each (λ s. Le (At s.collection.as_of) s.since) (settled log) }
    ensures high { (log : Log) → Legal log
        → Each (λ s. IsWithin (read_time log) s.since) (settled log) }
    ensures uppers { (log : Log) → Legal log
        → Each (λ c. c.upper ≤ read_time log + 1) (collections log) }
{}

/// The reports that count of live replicas are honest: one that has come to a pending peek isn't
/// past its time, unless the peek is about to be finished. Takes no memory.
#[tactic(auto, using(crate::proofs::Honest::reports_are_honest))]
pub fn reports_are_honest()
    ensures { (log : Log) → Legal log → AreHonest log }
{}

/// Each legal log is safe: all of the above holds of it. Takes no memory.
#[tactic(auto, using(crate::proofs::Honest::legal_logs_are_safe))]
pub fn legal_logs_are_safe()
    ensures { (log : Log) → Legal log → Safe log }
{}
