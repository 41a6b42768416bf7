//! That replicas are asked for what waits, and answer it.
ghost use Rattle.std.specs.List.{AllByRecursion as Each};
ghost use Rattle.std.specs.Prelude.{◌≡◌, ℕ, ◌<◌, List, true, filter, map, nat_lt};
ghost use Rattle.mz_books.specs.Clusters.{cluster_of};
ghost use Rattle.mz_books.specs.Collections.{collections};
ghost use Rattle.mz_books.specs.Holds.{pending};
ghost use Rattle.mz_books.specs.Legal.{Legal};
ghost use Rattle.mz_books.specs.Owed.{answers_of, finishes, is_answered, peek_rows};
ghost use Rattle.mz_books.specs.Rounds.{read_time};
ghost use Rattle.mz_books.specs.Safe.{AreAsked};
ghost use Rattle.mz_books.specs.Streams.{is_kept_in};
ghost use Rattle.mz_log.specs.Log.{Log};
ghost use Rattle.mz_log.specs.declared.entry.Entry.TheVariants.{Finish};
ghost use Rattle.mz_stream_laws.specs.Taken.{HasTakenAll};

/// Each live stream asks for each pending peek on a collection that the replicas of its cluster make. Takes no memory.
#[tactic(auto, using(crate::proofs::Asked::all_asked))]
pub fn each_live_stream_asks_each_pending_peek()
    ensures { (log : Log) → Legal log → AreAsked log }
{}

/// Each pending peek is on a collection that the replicas of its session's cluster make: on an index of that cluster, or
/// on what was made for the read. Takes no memory.
#[tactic(auto, using(crate::proofs::PeekPlaces::peeks_kept))]
pub fn each_pending_peek_is_kept_in_its_cluster()
    ensures { (log : Log) → Legal log
        → Each (λ peek. is_kept_in (cluster_of log peek.session) (collections log)
        peek.collection ≡ true) (pending log) }
{}

/// A packet that has all lines of a live stream of the main cluster answers, of the pending peeks, exactly those at times
/// below the one that it is ready for. Takes no memory.
pub fn packets_answer_what_has_come()
    ensures { (log : Log) (replica : List ℕ) (incarnation taken ready : ℕ) → Legal log
        → HasTakenAll log replica incarnation taken
        → filter (is_answered (answers_of log replica incarnation taken ready)) (pending log)
        ≡ filter (λ peek. nat_lt peek.time ready) (pending log) }
{}

/// One that is ready for a time past the read time answers all of them, so it finishes each pending peek, in order.
/// Takes no memory.
pub fn packets_past_the_read_time_answer_all()
    ensures all { (log : Log) (replica : List ℕ) (incarnation taken ready : ℕ) → Legal log
        → HasTakenAll log replica incarnation taken → read_time log < ready
        → filter (is_answered (answers_of log replica incarnation taken ready)) (pending log)
        ≡ pending log }
    ensures finished { (log : Log) (replica : List ℕ) (incarnation taken ready : ℕ) → Legal log
        → HasTakenAll log replica incarnation taken → read_time log < ready
        → finishes log (answers_of log replica incarnation taken ready)
        ≡ map (λ peek. Finish peek.peek (peek_rows log peek)) (pending log) }
{}
