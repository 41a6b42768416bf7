//! That queries are read.
ghost use Rattle.std.specs.Prelude.{◌≡◌, ℕ, ◌+◌, ◌<◌, ◌≤◌, List, [], None, Some, Ok};
ghost use Rattle.mz_books.specs.Answer.{answer};
ghost use Rattle.mz_books.specs.Holds.{transaction};
ghost use Rattle.mz_books.specs.Legal.{Legal};
ghost use Rattle.mz_books.specs.Owed.{owed};
ghost use Rattle.mz_books.specs.Rounds.{ddl, read_time};
ghost use Rattle.mz_books.specs.Sessions.{calls_made};
ghost use Rattle.mz_complete_laws.specs.Saying.{IsPlanned, MaySay, read_entry};
ghost use Rattle.mz_grammar.specs.declared.asked.Asked.TheVariants as asks;
ghost use Rattle.mz_log.specs.Log.{Log};
ghost use Rattle.mz_log.specs.declared.entry.Entry.TheVariants.{Refused};
ghost use Rattle.mz_plan.specs.declared.plan.Plan.{Plan};
ghost use Rattle.mz_print.specs.Print.{print_of};
ghost use Rattle.mz_refusal.specs.declared.refusal.Refusal.TheVariants as refusal;
ghost use Rattle.mz_statement.specs.declared.statement.Statement.{Statement};

/// Outside a transaction, a query that names no time and whose names resolve is read, at the read time. Takes no memory.
#[tactic(auto, using(crate::proofs::AtRead::queries_read))]
pub fn queries_are_read()
    ensures { (log : Log) (session : ℕ) (text : List ℕ) (statement : Statement) (plan : Plan)
        → Legal log → MaySay log session → transaction log session ≡ None
        → IsPlanned log session statement plan
        → answer log session text (asks.Statement statement)
        ≡ Ok (read_entry log session statement plan (read_time log)) }
{}

/// In a transaction, a query that names no time and whose names resolve is read, at the transaction's time, unless a CREATE
/// or DROP has succeeded since; then it is refused for that. So it is never refused because what it reads has forgotten the
/// time. Takes no memory.
pub fn queries_in_transactions_are_read()
    ensures read { (log : Log) (session : ℕ) (text : List ℕ) (statement : Statement) (plan : Plan)
        (time : ℕ) → Legal log → owed log ≡ [] → MaySay log session
        → transaction log session ≡ Some time → IsPlanned log session statement plan
        → ddl log ≤ time → answer log session text (asks.Statement statement)
        ≡ Ok (read_entry log session statement plan time) }
    ensures moved { (log : Log) (session : ℕ) (text : List ℕ) (statement : Statement)
        (plan : Plan) (time : ℕ) → Legal log → MaySay log session
        → transaction log session ≡ Some time → IsPlanned log session statement plan
        → time < ddl log → answer log session text (asks.Statement statement)
        ≡ Ok (Refused session (calls_made log session + 1) (print_of statement)
        (refusal.CatalogMoved (ddl log) time)) }
{}
