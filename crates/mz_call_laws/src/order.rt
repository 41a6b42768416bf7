//! The history of a log is its calls, sorted by time.
ghost use Rattle.mz_call_laws.specs.Calls.{calls_at};
ghost use Rattle.mz_books.specs.Calls.{Call, calls};
ghost use Rattle.mz_books.specs.History.{by_time, history};
ghost use Rattle.mz_log.specs.Log.{Log};
ghost use Rattle.std.specs.List.Sorted.{IsNonDecreasingBy};
ghost use Rattle.std.specs.Prelude.{◌≡◌, ℕ, List, IsPermutation};

/// The history of any log has each call of the log once, no time in it falls, and the calls of one
/// time stand in the order in which they were submitted. Takes no memory.
pub fn history_is_sorted()
    ensures all_calls { (log : Log) → IsPermutation (calls log) (history log) }
    ensures rises { (log : Log) → IsNonDecreasingBy (λ call. call.stored.time) (history log) }
    ensures is_stable { (log : Log) (time : ℕ)
        → calls_at time (history log) ≡ calls_at time (calls log) }
{}

/// Any calls are sorted so in one way: a list whose times never fall, with the calls of each time
/// in their order, is that of `by_time`, by which the history is made. A stable sort of calls by
/// their times therefore makes it. Takes no memory.
pub fn sorted_is_history()
    ensures { (calls sorted : List Call) → IsNonDecreasingBy (λ call. call.stored.time) sorted
        → ((time : ℕ) → calls_at time sorted ≡ calls_at time calls) → sorted ≡ by_time calls }
{}
