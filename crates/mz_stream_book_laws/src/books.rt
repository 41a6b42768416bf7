//! What is read off the book of streams of a log: it is what the log has.
ghost use Rattle.std.specs.Prelude.{◌≡◌, ℕ, List, [], Some};
ghost use Rattle.mz_log.specs.declared.stream.Stream.{Stream};
ghost use Rattle.mz_log.specs.Log.{Log};
ghost use Rattle.mz_history.specs.StreamBook.{kept_of, lines_of, no_streams, stream_of, times_of, with_joining};
ghost use Rattle.mz_books.specs.GivenReplicas.{kept_taken};
ghost use Rattle.mz_books.specs.Streams.{first_replica, incarnations, lines_in, live_stream};
ghost use Rattle.mz_stream_book_laws.specs.StreamBookOf.{kept_where, stream_book};

/// The stream of a replica in the book of a log is its live stream in the log: there is one where
/// the log has one, it has the same lines, and those are kept that the log's report keeps. So what
/// a history gives of it after so many lines is what the log has after so many. Takes no memory.
pub fn streams_are_found()
    ensures found { (log : Log) (replica : List ℕ)
        → stream_of replica (stream_book log).live ≡ kept_where (live_stream log replica) }
    ensures lines { (log : Log) (replica : List ℕ)
        → lines_of (stream_of replica (stream_book log).live)
        ≡ lines_in (live_stream log replica) }
    ensures kept { (log : Log) (replica : List ℕ) (own : Stream)
        → live_stream log replica ≡ Some own
        → kept_of (stream_of replica (stream_book log).live) ≡ kept_taken own }
{}

/// A replica has joined as often in the book of a log as in the log; and at the opening the first
/// replica has joined, which was told nothing. Takes no memory.
pub fn joinings_are_counted()
    ensures times { (log : Log) (replica : List ℕ)
        → times_of replica (stream_book log).joined ≡ incarnations log replica }
    ensures opening { stream_book [] ≡ with_joining first_replica [] no_streams }
{}
