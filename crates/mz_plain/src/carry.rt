//! The commands of a round are carried out.
ghost use Rattle.std.specs.Prelude.{◌≡◌, ◌++◌, true, false, Some, IfOk, OnOk, OnErr};
ghost use Rattle.mz_plan.specs.Indexes.{descend};
ghost use Rattle.mz_seq.specs.Asked.{IsAsked};
ghost use Rattle.mz_seq.specs.Done.{is_query, IsDone};
ghost use Rattle.mz_kept.specs.Carrying.{index_plan, made_plan, newest_first, IsCarriedOut, AreCarriedOut};

use mz_core::{RoundReply, Waiting};
use mz_log::SeqReply;
use mz_plan::{MadePlans, Plan, Resolved, TableBags};
use mz_refusal::{CallFault, Refusal};
use mz_resolve::resolve;
use mz_seq::Seq;
use mz_statement::Statement;
use std::alloc::{AllocError, Global};

// Whether it is a query.
fn is_query(asked: &Resolved) -> bool
    ensures { result ≡ is_query asked.now }
{
    matches!(asked, Resolved::Query(_))
}

// A copy of the plan of an index that is asked for.
fn index_plan(alloc: Global, asked: &Resolved) -> Result<Option<Plan>, AllocError>
    ensures { IfOk result (λ plan. plan ≡ index_plan asked.now) }
{
    match asked {
        Resolved::CreateIndex(_, _, plan, _) => Ok(Some(plan.try_copy(alloc)?)),
        _ => Ok(None),
    }
}

// Notes the plan of an index that is made.
fn note_plan(made: &mut Vec<(u64, Plan)>, plan: Plan, reply: &SeqReply) -> Result<(), AllocError>
    ensures { OnOk result
        (made.new.items ≡ made.old.items ++ made_plan (Some plan) reply.now) }
{
    match reply {
        SeqReply::Created(id) => Ok(made.push((*id, plan))?),
        _ => Ok(()),
    }
}

// Notes the plan of an index that is made, where one is.
fn note_made(
    made: &mut Vec<(u64, Plan)>,
    plan: Option<Plan>,
    reply: &SeqReply,
) -> Result<(), AllocError>
    ensures { OnOk result (made.new.items ≡ made.old.items ++ made_plan plan reply.now) }
{
    match plan {
        Some(plan) => note_plan(made, plan, reply),
        None => Ok(()),
    }
}

// Carries out what is asked for.
fn carry_out_asked(
    alloc: Global,
    seq: &mut Seq,
    made: &mut Vec<(u64, Plan)>,
    asked: Resolved,
) -> Result<SeqReply, AllocError>
    requires asked { IsAsked seq.old.present.items asked }
    requires no_query { is_query asked ≡ false }
    ensures done { IfOk result (λ reply. IsDone asked seq.old.present seq.new.present reply) }
    ensures made { IfOk result (λ reply.
        made.new.items ≡ made.old.items ++ made_plan (index_plan asked) reply) }
    ensures marked { seq.new.marked ≡ seq.old.marked }
{
    let plan = index_plan(alloc, &asked)?;
    let reply = seq.apply(asked)?;
    note_made(made, plan, &reply)?;
    Ok(reply)
}

// Carries out a statement. A query is no command, and refused.
fn carry_out(
    alloc: Global,
    seq: &mut Seq,
    made: &mut Vec<(u64, Plan)>,
    statement: &Statement,
) -> Result<SeqReply, AllocError>
    ensures done { IfOk result (λ reply. IsCarriedOut statement.now
        seq.old.present made.old.items seq.new.present made.new.items reply) }
    ensures marked { seq.new.marked ≡ seq.old.marked }
{
    match resolve(alloc, statement, seq.catalog(), 0) {
        Ok(asked) => {
            if is_query(&asked) {
                return Ok(SeqReply::Refused(Refusal::Syntax { at: 0 }));
            }
            carry_out_asked(alloc, seq, made, asked)
        }
        Err(CallFault::Refused(refusal)) => Ok(SeqReply::Refused(refusal)),
        Err(CallFault::Memory) => Err(AllocError),
    }
}

/// Carries out commands, one after another. What indexes are made is noted, the newest last. After an `Err` some of them
/// may be carried out.
pub fn carry_out_each(
    alloc: Global,
    seq: &mut Seq,
    made: &mut Vec<(u64, Plan)>,
    commands: &[Waiting],
) -> Result<Vec<RoundReply>, AllocError>
    ensures done { IfOk result (λ replies. AreCarriedOut commands.now
        seq.old.present made.old.items seq.new.present made.new.items replies.items) }
    ensures marked { seq.new.marked ≡ seq.old.marked }
{
    let mut replies = Vec::new(alloc);
    'commands: for command in commands {
        let reply = carry_out(alloc, seq, made, &command.statement)?;
        replies.push(RoundReply {
            session: command.session,
            call: command.call,
            reply,
        })?;
    }
    Ok(replies)
}

// The plans, those of the indexes that were made now before them.
fn with_made(
    alloc: Global,
    made: Vec<(u64, Plan)>,
    plans: &MadePlans,
) -> Result<MadePlans, AllocError>
    requires { descend (newest_first made.items plans.now) ≡ true }
    ensures { IfOk result (λ all. all ≡ newest_first made.items plans.now) }
{
    let mut all = made;
    all.reverse();
    let older = plans.as_slice();
    'plans: for entry in older {
        all.push((entry.0, entry.1.try_copy(alloc)?))?;
    }
    Ok(MadePlans::from_vec(all))
}

/// Adds the plans of the indexes that were made, of which the last is the newest. After an `Err` the plans are as before.
/// Where an index was made it copies the plans of all.
pub fn add_plans(
    alloc: Global,
    tables: &mut TableBags,
    made: Vec<(u64, Plan)>,
) -> Result<(), AllocError>
    requires { descend (newest_first made.items tables.old.plans) ≡ true }
    ensures ok { OnOk result (tables.new.plans ≡ newest_first made.items tables.old.plans) }
    ensures err { OnErr result (tables.new.plans ≡ tables.old.plans) }
{
    if made.is_empty() {
        return Ok(());
    }
    tables.plans = with_made(alloc, made, &tables.plans)?;
    Ok(())
}
