//! What is answered may follow.
ghost use Rattle.std.specs.Prelude.{◌≡◌, ℕ, List};
ghost use Rattle.std.specs.Prelude.{Ok};
ghost use Rattle.mz_grammar.specs.Asked.{IsAsked};
ghost use Rattle.mz_grammar.specs.declared.asked.Asked.{Asked};
ghost use Rattle.mz_books.specs.Answer.{answer};
ghost use Rattle.mz_books.specs.Legal.{MayFollow};
ghost use Rattle.mz_log.specs.Log.{Log};
ghost use Rattle.mz_books.specs.Sessions.{IsOpened};
ghost use Rattle.mz_log.specs.declared.entry.Entry.{Entry};

/// The entry that a session is answered with may follow the log, where the session was opened and the text asks for that.
/// Takes no memory.
pub fn answers_may_follow()
    ensures { (log : Log) (session : ℕ) (text : List ℕ) (asked : Asked) (entry : Entry)
        → IsOpened log session → IsAsked text asked
        → answer log session text asked ≡ Ok entry → MayFollow log entry }
{}
