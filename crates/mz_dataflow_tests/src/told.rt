//! A dataflow with all that it was offered, so that each run is known to be within the bound.
ghost use Rattle.std.specs.Prelude.{◌≡◌, [], ℕ, IfOk, OnOk};
ghost use Rattle.mz_plan.specs.declared.plan.Plan.{Plan};
ghost use Rattle.mz_dataflow.specs.Flow.{longer, LeafUpdates};
ghost use Rattle.mz_dataflow.specs.Stands.{offers_of, with_offer, CanRunTo, Stands};
ghost use Rattle.mz_dataflow_tests.specs.Told.{IsTold};

use crate::bounds::{want_before, want_few, want_from, want_later, want_light, want_small};
use mz_bag::Bag;
use mz_dataflow::{Dataflow, laws};
use mz_plan::Plan;
use mz_time::Time;
use mz_updates::{Update, Updates};
use mz_value::TryCopy;
use std::alloc::{AllocError, Global};
use std::process::Abort;

/// A dataflow, and all that its leaves were offered.
#[derive(Drop)]
pub struct Told {
    pub flow: Dataflow,
    pub given: Vec<(u64, Updates)>,
}

impl Told {
    /// The dataflow of a plan as of a time, which was offered nothing yet.
    pub fn of(alloc: Global, plan: &Plan, as_of: Time) -> Result<Told, AllocError>
        ensures { IfOk result (λ told. IsTold plan.now told.flow told.given.items) }
    {
        let flow = Dataflow::build(alloc, plan, as_of)?;
        let given = Vec::new(alloc);
        Ok(Told { flow, given })
    }
}

// Offers updates. Where there is no memory for it, nothing more is offered, and their copy is offered: what the next run gives
// would show what was left of the first offer.
fn offer_twice(
    flow: &mut Dataflow,
    leaf: u64,
    updates: Updates,
    copy: Updates,
) -> Result<(), AllocError>
    requires { copy ≡ updates }
    ensures offers { OnOk result ((item : ℕ)
        → offers_of flow.new item ≡ with_offer leaf updates (offers_of flow.old) item) }
    ensures output { flow.new.output ≡ flow.old.output }
    ensures stands { (plan : Plan) (us : LeafUpdates)
        → Stands plan flow.old us → Stands plan flow.new us }
{
    if flow.offer(leaf, updates).is_ok() {
        return Ok(());
    }
    flow.offer(leaf, copy)
}

/// Offers updates to a leaf, which have to be from the upper on.
pub fn offer(
    rt: &impl Abort,
    alloc: Global,
    plan: &Plan,
    told: &mut Told,
    leaf: u64,
    updates: Updates,
) -> Result<(), AllocError>
    requires { IsTold plan.now told.old.flow told.old.given.items }
    ensures { OnOk result (IsTold plan.now told.new.flow told.new.given.items) }
{
    want_from(rt, &updates, told.flow.upper());
    let kept = updates.try_copy(alloc)?;
    let copy = updates.try_copy(alloc)?;
    told.given.push((leaf, kept))?;
    offer_twice(&mut told.flow, leaf, updates, copy)?;
    Ok(())
}

// Runs to a time. Where there is no memory for it, it answers so from then on.
fn run(rt: &impl Abort, flow: &mut Dataflow, next: Time) -> Result<(), AllocError>
    requires { CanRunTo flow.old next }
    ensures stands { OnOk result ((plan : Plan) (us : LeafUpdates)
        → Stands plan flow.old us → Stands plan flow.new (longer us (offers_of flow.old))) }
    ensures offers { OnOk result (flow.new.offered.items ≡ []) }
{
    if flow.run_to(next).is_ok() {
        return Ok(());
    }
    let is_spent = flow.run_to(next).is_err();
    assert!(rt; is_spent);
    Err(AllocError)
}

/// Runs to a time, before which all that was offered has to be.
pub fn run_to(
    rt: &impl Abort,
    alloc: Global,
    plan: &Plan,
    told: &mut Told,
    next: Time,
) -> Result<(), AllocError>
    requires { IsTold plan.now told.old.flow told.old.given.items }
    ensures { OnOk result (IsTold plan.now told.new.flow told.new.given.items) }
{
    laws::runs_of_few_updates();
    want_few(rt, alloc, plan)?;
    want_before(rt, &told.given, next);
    want_small(rt, &told.given);
    want_later(rt, told.flow.upper(), next);
    run(rt, &mut told.flow, next)?;
    Ok(())
}

/// Lets the past before a time go.
pub fn allow(rt: &impl Abort, plan: &Plan, told: &mut Told, since: Time)
    requires { IsTold plan.now told.old.flow told.old.given.items }
    ensures { IsTold plan.now told.new.flow told.new.given.items }
{
    want_later(rt, told.flow.since(), since);
    told.flow.allow(since);
}

/// The rows at a time, which has to be from the since on and below the upper.
pub fn rows_at(rt: &impl Abort, told: &Told, t: Time) -> Result<Bag, AllocError> {
    assert!(rt; told.flow.since() <= t);
    assert!(rt; t < told.flow.upper());
    told.flow.output().read(t)
}

// Puts updates behind others.
fn push_all(updates: &mut Updates, more: Updates) -> Result<(), AllocError> {
    for Update { row, time, diff } in more.into_vec() {
        updates.push(row, time, diff)?;
    }
    Ok(())
}

/// The rows at a time of what a leaf was offered.
pub fn leaf_at(
    rt: &impl Abort,
    alloc: Global,
    told: &Told,
    leaf: u64,
    t: Time,
) -> Result<Bag, AllocError> {
    let mut all = Updates::empty(alloc);
    for one in &told.given {
        if one.0 == leaf {
            push_all(&mut all, one.1.try_copy(alloc)?)?;
        }
    }
    want_light(rt, &all);
    all.contents(t)
}
