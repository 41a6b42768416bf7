//! What each event makes of the book of streams of a log: the steps of a history.
ghost use Rattle.std.specs.Prelude.{◌≡◌, ℕ, List, ◌∷◌, None, Some, map, true};
ghost use Rattle.std.specs.List.{AllByRecursion as Each};
ghost use Rattle.mz_plan.specs.declared.command.Command.{Command};
ghost use Rattle.mz_rules.specs.Joining.{allowances, joining};
ghost use Rattle.mz_log.specs.declared.entry.Entry.TheVariants.{Absorbed, Crash, Fed, Join};
ghost use Rattle.mz_log.specs.declared.stream.Stream.{Stream};
ghost use Rattle.mz_log.specs.Log.{Log};
ghost use Rattle.mz_history.specs.StreamBook.{trimmed, with_joining, without_stream};
ghost use Rattle.mz_books.specs.Holds.{pending};
ghost use Rattle.mz_books.specs.Legal.{Legal};
ghost use Rattle.mz_books.specs.Since.{settled};
ghost use Rattle.mz_books.specs.Streams.{live_stream, newer_report, streams, told_more};
ghost use Rattle.mz_stream_book_laws.specs.StreamBookOf.{book_of, live_replicas, stream_book, taken_by, told_all_each, told_in_turn, told_one_each};

/// A replica joins: its stream comes behind the others as its next incarnation, with the first
/// lines of its cluster. Takes no memory.
pub fn a_replica_joins()
    ensures { (log : Log) (replica : List ℕ) (incarnation cluster : ℕ)
        → Legal (Join replica incarnation cluster ∷ log)
        → stream_book (Join replica incarnation cluster ∷ log)
        ≡ with_joining replica (joining cluster (settled log) (pending log)) (stream_book log) }
{}

/// A replica is lost: its stream goes. Takes no memory.
pub fn a_replica_is_lost()
    ensures { (log : Log) (replica : List ℕ)
        → stream_book (Crash replica ∷ log) ≡ without_stream replica (stream_book log) }
{}

/// A replica is fed: its stream is told what may be forgotten. Takes no memory.
pub fn a_feed_is_told()
    ensures { (log : Log) (replica : List ℕ) (incarnation taken to : ℕ) (own : Stream)
        → Legal log → live_stream log replica ≡ Some own → own.incarnation ≡ incarnation
        → stream_book (Fed replica incarnation taken to ∷ log)
        ≡ told_one_each replica (allowances (settled log) own.commands) (stream_book log) }
{}

/// A packet is absorbed: where it is of the live incarnation, the lines that the report that counts
/// then has taken aren't asked for again; else all is as before. Takes no memory.
pub fn a_packet_is_absorbed()
    ensures live { (log : Log) (replica : List ℕ) (incarnation turn taken ready : ℕ)
        (frontiers : List (ℕ × ℕ)) (own : Stream)
        → Legal log → live_stream log replica ≡ Some own → own.incarnation ≡ incarnation
        → stream_book (Absorbed replica incarnation turn taken ready frontiers ∷ log)
        ≡ trimmed replica
        (taken_by (newer_report (record { turn = turn; taken = taken; ready = ready }) own.report))
        (stream_book log) }
    ensures older { (log : Log) (replica : List ℕ) (incarnation turn taken ready : ℕ)
        (frontiers : List (ℕ × ℕ)) (own : Stream)
        → Legal log → live_stream log replica ≡ Some own → (own.incarnation ≡ incarnation → ⊥)
        → stream_book (Absorbed replica incarnation turn taken ready frontiers ∷ log)
        ≡ stream_book log }
    ensures lost { (log : Log) (replica : List ℕ) (incarnation turn taken ready : ℕ)
        (frontiers : List (ℕ × ℕ)) → live_stream log replica ≡ None
        → stream_book (Absorbed replica incarnation turn taken ready frontiers ∷ log)
        ≡ stream_book log }
{}

/// Each live stream is told the lines of its cluster, as it is where a round is applied, a read is
/// made, a peek has its rows or a call is cancelled. That is done by telling one live replica after
/// another; and where each is told the same, by telling all. Takes no memory.
pub fn lines_are_told()
    ensures in_turn { (log : Log) (lines : ℕ → List Command) (cluster : List ℕ → ℕ) → Legal log
        → Each (λ s. s.live ≡ true → s.cluster ≡ cluster s.replica) (streams log)
        → book_of (map (told_more lines) (streams log))
        ≡ told_in_turn (λ replica. lines (cluster replica)) (live_replicas (stream_book log))
        (stream_book log) }
    ensures alike { (log : Log) (lines : ℕ → List Command) (same : List Command)
        → Each (λ s. s.live ≡ true → lines s.cluster ≡ same) (streams log)
        → book_of (map (told_more lines) (streams log)) ≡ told_all_each same (stream_book log) }
{}
