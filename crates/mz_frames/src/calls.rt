//! Submissions: what a call that is made changes of what sessions have.
ghost use Rattle.std.specs.Prelude.{◌≡◌, ℕ, ◌+◌, ◌==◌, List, [], ◌∷◌, ◌++◌, None, Some, length, if◌then◌else◌};
ghost use Rattle.mz_statement.specs.declared.statement.Statement.{Statement};
ghost use Rattle.mz_refusal.specs.declared.refusal.Refusal.{Refusal};
ghost use Rattle.mz_log.specs.declared.entry.Entry.TheVariants.{Queue, Read, Refused};
ghost use Rattle.mz_log.specs.declared.reply.Reply.TheVariants as reply;
ghost use Rattle.mz_log.specs.Log.{Log};
ghost use Rattle.mz_books.specs.Calls.{calls, new_call};
ghost use Rattle.mz_books.specs.Clusters.{cluster_of};
ghost use Rattle.mz_books.specs.Legal.{Legal};
ghost use Rattle.mz_books.specs.Rounds.{queued};
ghost use Rattle.mz_books.specs.Sessions.{calls_made, outstanding, seen};

/// A command is queued: its session has made one call more, which is the one that it waits for, and
/// there is one call more; no session has seen a later time. Takes no memory.
#[tactic(auto, using(crate::proofs::Submissions::queued_ones))]
pub fn a_command_is_queued()
    ensures calls_made { (log : Log) (session call : ℕ) (statement : Statement) (other : ℕ)
        → calls_made (Queue session call statement ∷ log) other
        ≡ if session == other then calls_made log other + 1 else calls_made log other }
    ensures all_calls { (log : Log) (session call : ℕ) (statement : Statement)
        → length (calls (Queue session call statement ∷ log)) ≡ length (calls log) + 1 }
    ensures outstanding { (log : Log) (session call : ℕ) (statement : Statement)
        → Legal (Queue session call statement ∷ log) → (other : ℕ)
        → outstanding (Queue session call statement ∷ log) other
        ≡ if session == other then Some call else outstanding log other }
    ensures seen { (log : Log) (session call : ℕ) (statement : Statement) (other : ℕ)
        → seen (Queue session call statement ∷ log) other ≡ seen log other }
{}

/// A read is made: its session has made one call more, which is the one that it waits for, and there
/// is one call more; its session has seen the time of the read. Takes no memory.
pub fn a_read_is_made()
    ensures calls_made { (log : Log) (session call peek time : ℕ) (statement : Statement)
        (collection other : ℕ)
        → calls_made (Read session call peek time statement collection ∷ log) other
        ≡ if session == other then calls_made log other + 1 else calls_made log other }
    ensures all_calls { (log : Log) (session call peek time : ℕ) (statement : Statement)
        (collection : ℕ)
        → length (calls (Read session call peek time statement collection ∷ log))
        ≡ length (calls log) + 1 }
    ensures outstanding { (log : Log) (session call peek time : ℕ) (statement : Statement)
        (collection : ℕ) → Legal (Read session call peek time statement collection ∷ log)
        → (other : ℕ)
        → outstanding (Read session call peek time statement collection ∷ log) other
        ≡ if session == other then Some call else outstanding log other }
    ensures seen { (log : Log) (session call peek time : ℕ) (statement : Statement)
        (collection : ℕ) → Legal (Read session call peek time statement collection ∷ log)
        → (other : ℕ)
        → seen (Read session call peek time statement collection ∷ log) other
        ≡ if session == other then time else seen log other }
{}

/// A call is refused as it is submitted, by a session that waits for none: its session has made one
/// call more, and there is one call more, which has its reply; no session waits for another call or
/// has seen a later time, and the same commands wait. Takes no memory.
pub fn a_call_is_refused()
    ensures calls { (log : Log) (session call : ℕ) (text : List ℕ) (refusal : Refusal)
        → Legal (Refused session call text refusal ∷ log) → outstanding log session ≡ None
        → calls (Refused session call text refusal ∷ log)
        ≡ calls log
        ++ new_call session call (seen log session) text (Some (reply.Refused refusal)) None
        (cluster_of log session) None ∷ [] }
    ensures calls_made { (log : Log) (session call : ℕ) (text : List ℕ) (refusal : Refusal)
        → Legal (Refused session call text refusal ∷ log) → outstanding log session ≡ None
        → (other : ℕ) → calls_made (Refused session call text refusal ∷ log) other
        ≡ if session == other then calls_made log other + 1 else calls_made log other }
    ensures all_calls { (log : Log) (session call : ℕ) (text : List ℕ) (refusal : Refusal)
        → Legal (Refused session call text refusal ∷ log) → outstanding log session ≡ None
        → length (calls (Refused session call text refusal ∷ log)) ≡ length (calls log) + 1 }
    ensures outstanding { (log : Log) (session call : ℕ) (text : List ℕ) (refusal : Refusal)
        → Legal (Refused session call text refusal ∷ log) → outstanding log session ≡ None
        → (other : ℕ)
        → outstanding (Refused session call text refusal ∷ log) other ≡ outstanding log other }
    ensures seen { (log : Log) (session call : ℕ) (text : List ℕ) (refusal : Refusal)
        → Legal (Refused session call text refusal ∷ log) → outstanding log session ≡ None
        → (other : ℕ) → seen (Refused session call text refusal ∷ log) other ≡ seen log other }
    ensures queued { (log : Log) (session call : ℕ) (text : List ℕ) (refusal : Refusal)
        → outstanding log session ≡ None
        → queued (Refused session call text refusal ∷ log) ≡ queued log }
{}
