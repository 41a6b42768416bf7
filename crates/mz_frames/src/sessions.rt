//! Sessions that weren't opened, and so the one that is opened next: what they have.
ghost use Rattle.std.specs.Prelude.{◌≡◌, ℕ, ◌<◌, None, false, length};
ghost use Rattle.mz_log.specs.Log.{Log};
ghost use Rattle.mz_books.specs.Holds.{transaction};
ghost use Rattle.mz_books.specs.Legal.{Legal};
ghost use Rattle.mz_books.specs.Sessions.{calls_made, is_closed, outstanding, seen, sessions};

/// A session that wasn't opened has made no call, waits for none, has seen no time, is in no
/// transaction and isn't closed: so a session that is opened begins with that. Takes no memory.
pub fn unopened_sessions_have_nothing()
    ensures calls_made { (log : Log) → Legal log → (session : ℕ)
        → length (sessions log) < session → calls_made log session ≡ 0 }
    ensures outstanding { (log : Log) → Legal log → (session : ℕ)
        → length (sessions log) < session → outstanding log session ≡ None }
    ensures seen { (log : Log) → Legal log → (session : ℕ)
        → length (sessions log) < session → seen log session ≡ 0 }
    ensures transaction { (log : Log) → Legal log → (session : ℕ)
        → length (sessions log) < session → transaction log session ≡ None }
    ensures closed { (log : Log) → Legal log → (session : ℕ)
        → length (sessions log) < session → is_closed log session ≡ false }
{}
