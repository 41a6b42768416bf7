//! The calls of each session in a legal log.
ghost use Rattle.mz_call_laws.specs.Calls.{Precedes, last_time_of, numbers, unreplied};
ghost use Rattle.mz_call_laws.specs.Members.{Has, Pairwise};
ghost use Rattle.mz_books.specs.Calls.{Call, calls, calls_of, is_waiting};
ghost use Rattle.mz_books.specs.History.{history};
ghost use Rattle.mz_books.specs.Legal.{Legal};
ghost use Rattle.mz_log.specs.Log.{Log};
ghost use Rattle.mz_books.specs.Rounds.{read_time};
ghost use Rattle.mz_books.specs.Sessions.{calls_made, outstanding, seen};
ghost use Rattle.std.specs.List.{range_with_len};
ghost use Rattle.std.specs.List.Sorted.{IsNonDecreasingBy};
ghost use Rattle.std.specs.Option.{option_to_list};
ghost use Rattle.std.specs.Prelude.{◌≡◌, ◌≤◌, ℕ, IfSome, Some, true};

/// In a legal log the calls of a session are numbered from 1 to the last one that it made, each
/// once and in order, their times never fall, and they stand so in the history too. Takes no
/// memory.
pub fn calls_are_in_order()
    ensures numbers { (log : Log) (session : ℕ) → Legal log
        → numbers (calls_of session (calls log)) ≡ range_with_len 1 (calls_made log session) }
    ensures times { (log : Log) (session : ℕ) → Legal log
        → IsNonDecreasingBy (λ call. call.stored.time) (calls_of session (calls log)) }
    ensures history { (log : Log) (session : ℕ) → Legal log
        → calls_of session (history log) ≡ calls_of session (calls log) }
{}

/// In a legal log each call precedes those that were submitted after it: in one session its number
/// is less, its time no later, and it has its reply; and of two reads in any sessions the first has
/// the lesser peek. Takes no memory.
pub fn calls_follow_one_another()
    ensures { (log : Log) → Legal log → Pairwise Precedes (calls log) }
{}

/// In a legal log a call is told by its session and number, a read by its peek, and a call that waits
/// by its session. Takes no memory.
pub fn calls_are_told_apart()
    ensures by_number { (log : Log) → Legal log → (first second : Call)
        → Has first (calls log) → Has second (calls log)
        → first.stored.session ≡ second.stored.session → first.stored.call ≡ second.stored.call
        → first ≡ second }
    ensures by_peek { (log : Log) → Legal log → (first second : Call) (peek : ℕ)
        → Has first (calls log) → Has second (calls log)
        → first.peek ≡ Some peek → second.peek ≡ Some peek → first ≡ second }
    ensures by_waiting { (log : Log) → Legal log → (first second : Call)
        → Has first (calls log) → Has second (calls log)
        → first.stored.session ≡ second.stored.session
        → is_waiting first ≡ true → is_waiting second ≡ true → first ≡ second }
{}

/// In a legal log at most one call of a session has no reply: the outstanding one, and none where
/// none is outstanding. It is the last that the session made. Takes no memory.
pub fn one_call_waits()
    ensures unreplied { (log : Log) (session : ℕ) → Legal log
        → numbers (unreplied (calls_of session (calls log)))
        ≡ option_to_list (outstanding log session) }
    ensures is_last { (log : Log) (session : ℕ) → Legal log
        → IfSome (outstanding log session) (λ number. number ≡ calls_made log session) }
{}

/// What a session has seen in a legal log is the time of its last call, or 0 where it made none; it
/// may be read. Takes no memory.
pub fn last_calls_are_seen()
    ensures last { (log : Log) (session : ℕ) → Legal log
        → seen log session ≡ last_time_of 0 (calls_of session (calls log)) }
    ensures readable { (log : Log) (session : ℕ) → Legal log → seen log session ≤ read_time log }
{}
