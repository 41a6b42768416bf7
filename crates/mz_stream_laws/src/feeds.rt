//! That streams only grow, how far feeds go, and that their packets may be absorbed later.
ghost use Rattle.std.specs.List.{AllByRecursion as Each};
ghost use Rattle.std.specs.Prelude.{◌≡◌, ℕ, ◌+◌, ◌≤◌, List, ◌∷◌, ◌++◌, true};
ghost use Rattle.mz_books.specs.Feeds.{packet_answers, packet_frontiers};
ghost use Rattle.mz_books.specs.Legal.{Legal, MayAbsorb};
ghost use Rattle.mz_books.specs.Owed.{answers_of};
ghost use Rattle.mz_books.specs.Rounds.{read_time};
ghost use Rattle.mz_books.specs.Since.{settled};
ghost use Rattle.mz_books.specs.Streams.{stream_of};
ghost use Rattle.mz_log.specs.Log.{Log};
ghost use Rattle.mz_log.specs.declared.entry.Entry.TheVariants.{Fed};
ghost use Rattle.mz_rules.specs.Frontiers.{IsWithin};
ghost use Rattle.mz_rules.specs.Joining.{is_table};
ghost use Rattle.mz_stream_laws.specs.Begins.{BeginsWith};

/// The stream of an incarnation in a longer log begins with that of the shorter one. Takes no memory.
#[tactic(auto, using(crate::proofs::Grows::streams_grow))]
pub fn streams_only_grow()
    ensures { (log later : Log) (replica : List ℕ) (incarnation : ℕ)
        → BeginsWith (stream_of log replica incarnation)
        (stream_of (later ++ log) replica incarnation) }
{}

/// The last time of a feed may be read, and is at or after the since of each table that isn't done. Takes no memory.
pub fn feeds_reach_the_tables()
    ensures readable { (log : Log) (replica : List ℕ) (incarnation taken to : ℕ)
        → Legal (Fed replica incarnation taken to ∷ log) → to ≤ read_time log }
    ensures reaches { (log : Log) (replica : List ℕ) (incarnation taken to : ℕ)
        → Legal (Fed replica incarnation taken to ∷ log)
        → Each (λ s. is_table s.collection.kind ≡ true → IsWithin to s.since) (settled log) }
{}

/// What a replica makes of the log at its feed may be absorbed at each longer legal log, and answers there the peeks
/// that it answers at the feed. Takes no memory.
pub fn a_packet_may_be_absorbed_later()
    ensures absorbed { (log later : Log) (replica : List ℕ) (incarnation taken to : ℕ)
        → Legal (later ++ (Fed replica incarnation taken to ∷ log))
        → MayAbsorb (later ++ (Fed replica incarnation taken to ∷ log)) replica incarnation taken
        (to + 1) (packet_frontiers
        (stream_of (Fed replica incarnation taken to ∷ log) replica incarnation) (to + 1)) }
    ensures answers { (log later : Log) (replica : List ℕ) (incarnation taken to : ℕ)
        → Legal (later ++ (Fed replica incarnation taken to ∷ log))
        → answers_of (later ++ (Fed replica incarnation taken to ∷ log)) replica incarnation taken
        (to + 1) ≡ packet_answers
        (stream_of (Fed replica incarnation taken to ∷ log) replica incarnation) (to + 1) }
{}
