//! Plain logs: those of scripts that leave replicas, clusters, holds and sessions as they are.
ghost use Rattle.std.specs.Prelude.{◌≡◌, ℕ, ◌+◌, ◌≤◌, List, [], ◌∷◌, None, Ok, codes, false, length, nat_le};
ghost use Rattle.mz_books.specs.Answer.{accepted, answer, as_of};
ghost use Rattle.mz_books.specs.Clusters.{clusters};
ghost use Rattle.mz_books.specs.Holds.{holds, holds_taken, transaction};
ghost use Rattle.mz_books.specs.Legal.{Legal};
ghost use Rattle.mz_books.specs.Owed.{event};
ghost use Rattle.mz_books.specs.Rounds.{ddl, read_time};
ghost use Rattle.mz_books.specs.Sessions.{calls_made, is_closed};
ghost use Rattle.mz_books.specs.Situation.{situation};
ghost use Rattle.mz_frames.specs.Turns.{IsTurn};
ghost use Rattle.mz_grammar.specs.declared.asked.Asked.{Asked};
ghost use Rattle.mz_log.specs.Log.{Log};
ghost use Rattle.mz_log.specs.declared.entry.Entry.{Entry};
ghost use Rattle.mz_log.specs.declared.entry.Entry.TheVariants.{Queue};
ghost use Rattle.mz_script_laws.specs.Plain.{IsPlain, IsPlainAsked, IsPlainLog, plain_answer, plain_read};
ghost use Rattle.mz_statement.specs.declared.statement.Kind.TheVariants as kind;
ghost use Rattle.mz_statement.specs.declared.statement.Statement.{Statement};

/// In a plain log no session is closed or in a transaction, no hold is live or was ever taken, and
/// there is the one cluster `main`. Takes no memory.
pub fn plain_logs_are_simple()
    ensures unclosed { (log : Log) → IsPlainLog log → (session : ℕ)
        → is_closed log session ≡ false }
    ensures outside { (log : Log) → IsPlainLog log → (session : ℕ)
        → transaction log session ≡ None }
    ensures unheld { (log : Log) → IsPlainLog log → holds log ≡ [] }
    ensures none_taken { (log : Log) → IsPlainLog log → holds_taken log ≡ 0 }
    ensures one_cluster { (log : Log) → IsPlainLog log → clusters log ≡ codes "main" ∷ [] }
{}

/// In a plain log a command is queued, and a query that names no time is read at the read time,
/// unless it doesn't resolve: nothing was made or removed since, and all that it reads is readable
/// then. A session makes a call, unless it waits or there are as many calls as there may be. Takes
/// no memory.
pub fn plain_answers_are_simple()
    ensures newest { (log : Log) → Legal log → ddl log ≤ read_time log }
    ensures commands { (log : Log) (session : ℕ) (statement : Statement) → IsPlainLog log
        → accepted (situation log session) session statement kind.Command
        ≡ Ok (Queue session (calls_made log session + 1) statement) }
    ensures queries { (log : Log) (session : ℕ) (statement : Statement) → Legal log
        → IsPlainLog log → as_of statement ≡ None
        → accepted (situation log session) session statement kind.Query
        ≡ plain_read log session statement }
    ensures answers { (log : Log) (session : ℕ) (text : List ℕ) (asked : Asked)
        → IsPlainLog log → answer log session text asked ≡ plain_answer log session text asked }
{}

/// An event of a plain entry and a turn leave a plain log plain, and what a session is answered that
/// asks for what is plain is a plain entry. Takes no memory.
pub fn plain_logs_grow()
    ensures event { (log : Log) (entry : Entry) → IsPlain entry → IsPlainLog log
        → IsPlainLog (event log entry) }
    ensures turn { (log later : Log) → IsTurn log later → IsPlainLog log → IsPlainLog later }
    ensures answers { (log : Log) (session : ℕ) (text : List ℕ) (asked : Asked) (entry : Entry)
        → IsPlainAsked asked → answer log session text asked ≡ Ok entry → IsPlain entry }
{}
