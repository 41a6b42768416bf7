//! Texts are submitted.
ghost use Rattle.std.specs.Prelude.{◌≡◌, ◌<◌, ◌-◌, ◌^◌, Some, Ok, List, ℕ, true, length, IfOk, OnErr};
ghost use Rattle.std.specs.FinMap.{entries};
ghost use Rattle.mz_bag.specs.Weighted.{bag_of};
ghost use Rattle.mz_grammar.specs.Asked.{IsAsked};
ghost use Rattle.mz_plan.specs.Bound.{IsBoundedIn};
ghost use Rattle.mz_plan.specs.Meaning.{meaning_of};
ghost use Rattle.mz_plan.specs.declared.tables.TableBags.{TableBags as Tables};
ghost use Rattle.mz_select.specs.Gives.{Is};
ghost use Rattle.mz_state_laws.specs.Evaluable.{AreOf};
ghost use Rattle.mz_state_laws.specs.Well.{IsWell};
ghost use Rattle.mz_statement.specs.Kind.{kind_of};
ghost use Rattle.mz_statement.specs.declared.statement.Kind.TheVariants as kind;
ghost use Rattle.mz_log.specs.CarriedOut.{rows_of};
ghost use Rattle.mz_log.specs.Log.{Log};
ghost use Rattle.mz_books.specs.Given.{Does};
ghost use Rattle.mz_books.specs.States.{plan_of, query_plan};
ghost use Rattle.mz_script.specs.Built.{is_built_asked};
ghost use Rattle.mz_kept.specs.Kept.{state_of};
ghost use Rattle.mz_plain.specs.Stands.{kept, Stands};
ghost use Rattle.mz_core.specs.Told.{answered_by, cause, submitting_given, IsNumberOf, IsOfLog, IsSpelled};
ghost use Rattle.mz_kept.specs.Taken.{IsQueued, IsRead, IsRefused, IsStatementTaken, IsTaken, IsWaiting};
ghost use Rattle.mz_kept.specs.Steps.{calling, next_call, session_at};
ghost use Rattle.mz_kept.specs.Within.{IsWithin};

use crate::Plain;
use crate::calls::note_call;
use mz_bag::CountedRows;
use mz_core::{FinishedRead, Submitted, Waiting};
use mz_eval::eval;
use mz_grammar::Asked;
use mz_plan::{Plan, Resolved, TableBags};
use mz_refusal::{CallFault, Limited, Refusal};
use mz_resolve::resolve;
use mz_statement::{Kind, Statement};
use std::alloc::{AllocError, Global};

// The plan of a query that was resolved. What is no query is refused at its first byte.
fn plan_in(alloc: Global, asked: &Resolved) -> Result<Plan, CallFault>
    ensures { Is result (plan_of (Ok asked.now)) }
{
    match asked {
        Resolved::Query(plan) => Ok(plan.try_copy(alloc)?),
        _ => Err(CallFault::Refused(Refusal::Syntax { at: 0 })),
    }
}

// The rows of a plan with their counts.
fn counted(alloc: Global, plan: &Plan, tables: &TableBags) -> Result<CountedRows, AllocError>
    requires { IsBoundedIn tables.now plan.now }
    ensures { IfOk result (λ rows. rows ≡ entries (bag_of (meaning_of plan.now tables.now))) }
{
    eval(alloc, plan, tables)?.into_counted()
}

/// How many calls all sessions may make together.
const MOST_CALLS: u64 = 1048576;

impl Plain {
    // The call of a session that has no reply yet.
    #[tactic(auto, using(crate::proofs::OfLog::session_owned))]
    fn outstanding(&self, session: u64) -> Option<u64>
        requires within { IsWithin (kept self.now) }
        requires number { IsNumberOf (length (kept self.now).names) session }
        ensures { result ≡ (session_at (kept self.now).sessions (session - 1)).outstanding }
    {
        self.sessions[session as usize - 1].outstanding
    }

    // The session of this number makes a call, which waits or has its reply: its number.
    #[tactic(auto, using(crate::proofs::OfLog::session_owned, crate::proofs::OfLog::session_few))]
    fn call(&mut self, session: u64, waits: bool) -> u64
        requires within { IsWithin (kept self.old) }
        requires few { (kept self.old).calls < 2 ^ 32 }
        requires number { IsNumberOf (length (kept self.old).names) session }
        ensures call { result ≡ next_call (kept self.old) session }
        ensures kept { kept self.new ≡ calling waits session (kept self.old) }
    {
        let call = note_call(&mut self.sessions, session, waits);
        self.calls += 1;
        call
    }

    // A call is refused.
    fn refuse(&mut self, session: u64, refusal: Refusal) -> Submitted
        requires within { IsWithin (kept self.old) }
        requires few { (kept self.old).calls < 2 ^ 32 }
        requires number { IsNumberOf (length (kept self.old).names) session }
        ensures { IsRefused (kept self.old) (kept self.new) session refusal result }
    {
        let call = self.call(session, false);
        Submitted::Refused(call, refusal)
    }

    // The number of the next call of a session.
    #[tactic(auto, using(crate::proofs::OfLog::session_owned, crate::proofs::OfLog::session_few))]
    fn next_call(&self, session: u64) -> u64
        requires within { IsWithin (kept self.now) }
        requires few { (kept self.now).calls < 2 ^ 32 }
        requires number { IsNumberOf (length (kept self.now).names) session }
        ensures { result ≡ next_call (kept self.now) session }
    {
        self.sessions[session as usize - 1].calls + 1
    }

    // A command waits for a round.
    fn queue(&mut self, session: u64, statement: Statement) -> Result<Submitted, AllocError>
        requires within { IsWithin (kept self.old) }
        requires few { (kept self.old).calls < 2 ^ 32 }
        requires number { IsNumberOf (length (kept self.old).names) session }
        ensures queued { IfOk result
            (λ told. IsQueued (kept self.old) (kept self.new) session statement told) }
        ensures err { OnErr result (kept self.new ≡ kept self.old) }
    {
        let call = self.next_call(session);
        self.rounds.queue(Waiting {
            session,
            call,
            statement,
        })?;
        Ok(Submitted::Queued(self.call(session, true)))
    }

    // The plan of a query, over the items of now.
    #[tactic(auto, using(crate::proofs::Planning::plan_is, crate::proofs::Planning::plan_fails))]
    fn plan(&self, statement: &Statement) -> Result<Plan, CallFault>
        ensures { Is result (query_plan
            (record { items = (kept self.now).database.items; cluster = 0 }) statement.now) }
    {
        let asked = resolve(self.alloc, statement, self.seq.catalog(), 0)?;
        plan_in(self.alloc, &asked)
    }

    // The rows of a plan over the tables of now.
    fn rows(&mut self, plan: &Plan) -> Result<CountedRows, AllocError>
        requires { (tables : Tables) → AreOf (state_of (kept self.old)) tables
            → IsBoundedIn tables plan.now }
        ensures rows { IfOk result (λ rows. rows
            ≡ entries (bag_of (rows_of (state_of (kept self.old)) plan.now))) }
        ensures kept { kept self.new ≡ kept self.old }
    {
        self.tables.bags = self.seq.bags()?;
        let rows = counted(self.alloc, plan, &self.tables);
        self.tables.bags = Vec::new(self.alloc);
        rows
    }

    // A read waits with its rows.
    fn wait(&mut self, session: u64, rows: CountedRows) -> Result<Submitted, AllocError>
        requires within { IsWithin (kept self.old) }
        requires few { (kept self.old).calls < 2 ^ 32 }
        requires number { IsNumberOf (length (kept self.old).names) session }
        ensures waits { IfOk result
            (λ told. IsWaiting (kept self.old) (kept self.new) session rows told) }
        ensures err { OnErr result (kept self.new ≡ kept self.old) }
    {
        let call = self.next_call(session);
        let peek = self.peeks + 1;
        let time = self.oracle.read();
        self.reads.push(FinishedRead {
            peek,
            session,
            call,
            time,
            rows,
        })?;
        self.call(session, true);
        self.peeks = peek;
        Ok(Submitted::Reading(call, time, peek))
    }

    // A query is read over the tables of now, or refused.
    #[tactic(auto, using(crate::proofs::Planning::plan_bounded, crate::proofs::Planning::plan_waits))]
    fn read(&mut self, session: u64, statement: &Statement) -> Result<Submitted, AllocError>
        requires within { IsWithin (kept self.old) }
        requires few { (kept self.old).calls < 2 ^ 32 }
        requires number { IsNumberOf (length (kept self.old).names) session }
        requires query { kind_of statement.now ≡ kind.Query }
        requires well { IsWell (state_of (kept self.old)) }
        ensures read { IfOk result (λ told. IsRead (kept self.old) (kept self.new) session
            (query_plan (record { items = (kept self.old).database.items; cluster = 0 }) statement.now) told) }
        ensures err { OnErr result (kept self.new ≡ kept self.old) }
    {
        match self.plan(statement) {
            Ok(plan) => {
                let rows = self.rows(&plan)?;
                self.wait(session, rows)
            }
            Err(CallFault::Refused(refusal)) => Ok(self.refuse(session, refusal)),
            Err(CallFault::Memory) => Err(AllocError),
        }
    }

    // A statement is queued, or read.
    fn submit_statement(
        &mut self,
        session: u64,
        statement: Statement,
    ) -> Result<Submitted, AllocError>
        requires within { IsWithin (kept self.old) }
        requires few { (kept self.old).calls < 2 ^ 32 }
        requires number { IsNumberOf (length (kept self.old).names) session }
        requires well { IsWell (state_of (kept self.old)) }
        ensures taken { IfOk result (λ told.
            IsStatementTaken (kept self.old) (kept self.new) session statement (kind_of statement) told) }
        ensures err { OnErr result (kept self.new ≡ kept self.old) }
    {
        match statement.kind() {
            Kind::Query => self.read(session, &statement),
            _ => self.queue(session, statement),
        }
    }

    // What is asked for is queued, read or refused.
    fn take(&mut self, session: u64, asked: Asked) -> Result<Submitted, AllocError>
        requires within { IsWithin (kept self.old) }
        requires few { (kept self.old).calls < 2 ^ 32 }
        requires number { IsNumberOf (length (kept self.old).names) session }
        requires well { IsWell (state_of (kept self.old)) }
        ensures taken { IfOk result (λ told. IsTaken (kept self.old) (kept self.new) session asked told) }
        ensures err { OnErr result (kept self.new ≡ kept self.old) }
    {
        match asked {
            Asked::Statement(statement) => self.submit_statement(session, statement),
            Asked::Syntax(at) => Ok(self.refuse(session, Refusal::Syntax { at })),
            Asked::LiteralRange(at) => Ok(self.refuse(session, Refusal::LiteralRange { at })),
        }
    }

    /// A session says a text that asks for this: what became of its call. A query is evaluated over the tables of now, and its
    /// rows are kept until reads are finished. After an `Err` all is as before.
    #[tactic(auto, using(crate::proofs::OfLog::of_log_well, crate::proofs::OfLog::of_log_within))]
    pub fn submit(&mut self, session: u64, asked: Asked) -> Result<Submitted, CallFault>
        requires number { IsNumberOf (length (kept self.old).names) session }
        requires asks { IsSpelled asked }
        requires built { is_built_asked asked ≡ true }
        requires of_log { IsOfLog Stands self.old }
        ensures { (log : Log) (text : List ℕ) → Stands self.old log → IsAsked text asked
            → Does cause log (submitting_given log session text asked) (answered_by Some result)
            (Stands self.new) }
    {
        if let Some(call) = self.outstanding(session) {
            return Err(CallFault::Refused(Refusal::Busy { call }));
        }
        if self.calls >= MOST_CALLS {
            return Err(CallFault::Refused(Refusal::TooMany {
                what: Limited::Calls,
                limit: MOST_CALLS,
            }));
        }
        Ok(self.take(session, asked)?)
    }
}
