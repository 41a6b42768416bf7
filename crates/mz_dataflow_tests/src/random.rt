//! Random plans and changes, by a fixed generator: a dataflow has at each time the rows that its plan gives.
ghost use Rattle.std.specs.Prelude.{◌<◌, ◌≤◌, ◌^◌, OnOk};
ghost use Rattle.mz_dataflow_tests.specs.Told.{IsTold};

use crate::plans::{group, stacked};
use crate::texts::{row, time};
use crate::told::{Told, leaf_at, offer, rows_at, run_to};
use mz_eval::{eval, is_bounded};
use mz_plan::{Aggregate, MadePlans, Plan, TableBags};
use mz_time::Time;
use mz_updates::Updates;
use std::alloc::{AllocError, Global};
use std::process::Abort;
use std::test::Fail;

// The generator's next number below a bound.
fn next(state: &mut u64, bound: u64) -> u64
    requires { 0 < bound }
    ensures { result < bound }
{
    *state = state
        .wrapping_mul(6_364_136_223_846_793_005)
        .wrapping_add(1_442_695_040_888_963_407);
    (*state >> 33) % bound
}

// A row of a few.
fn letters(state: &mut u64) -> &'static str {
    match next(state, 6) {
        0 => "11",
        1 => "12",
        2 => "13",
        3 => "21",
        4 => "22",
        _ => "31",
    }
}

// A few changes at two times from a first one on.
fn changes(
    rt: &impl Abort,
    alloc: Global,
    state: &mut u64,
    first: u64,
) -> Result<Updates, AllocError>
    requires { first < 2 ^ 32 }
{
    let mut updates = Updates::empty(alloc);
    for _ in 0..next(state, 4) {
        let row = row(alloc, letters(state))?;
        let at = time(rt, first + next(state, 2));
        updates.push(row, at, i128::from(next(state, 4)) - 1)?;
    }
    Ok(updates)
}

// Offers the tables 1 and 2 a few changes, at two times from a first one on, and runs past these.
fn take_step(
    rt: &impl Abort,
    alloc: Global,
    plan: &Plan,
    told: &mut Told,
    state: &mut u64,
    first: u64,
) -> Result<(), AllocError>
    requires told { IsTold plan.now told.old.flow told.old.given.items }
    requires first { first < 2 ^ 32 }
    ensures { OnOk result (IsTold plan.now told.new.flow told.new.given.items) }
{
    let left = changes(rt, alloc, state, first)?;
    offer(rt, alloc, plan, told, 1, left)?;
    let right = changes(rt, alloc, state, first)?;
    offer(rt, alloc, plan, told, 2, right)?;
    run_to(rt, alloc, plan, told, time(rt, first + 2))
}

// What was offered up to a time, as the tables 1 and 2.
fn tables(rt: &impl Abort, alloc: Global, told: &Told, t: Time) -> Result<TableBags, AllocError> {
    let mut bags = Vec::new(alloc);
    bags.push((1, leaf_at(rt, alloc, told, 1, t)?))?;
    bags.push((2, leaf_at(rt, alloc, told, 2, t)?))?;
    Ok(TableBags {
        bags,
        plans: MadePlans::from_vec(Vec::new(alloc)),
    })
}

// That the dataflow has at a time the rows of the plan.
fn agrees(
    rt: &impl Abort,
    alloc: Global,
    plan: &Plan,
    told: &Told,
    t: Time,
) -> Result<(), AllocError> {
    let tables = tables(rt, alloc, told, t)?;
    assert!(rt; is_bounded(alloc, plan, &tables)?);
    let wanted = eval(alloc, plan, &tables)?;
    let found = rows_at(rt, told, t)?;
    assert_eq!(rt;
        found.into_counted()?,
        wanted.into_counted()?,
        "at {}",
        t.number()
    );
    Ok(())
}

// Tells a dataflow random changes, two times a step.
fn tell(
    rt: &impl Abort,
    alloc: Global,
    plan: &Plan,
    told: &mut Told,
    state: &mut u64,
) -> Result<(), AllocError>
    requires { IsTold plan.now told.old.flow told.old.given.items }
    ensures { OnOk result (IsTold plan.now told.new.flow told.new.given.items) }
{
    'steps: for step in 0..12 {
        take_step(rt, alloc, plan, told, state, 2 * step)?;
    }
    Ok(())
}

// That the dataflow of a plan follows it through random changes.
fn follows(rt: &impl Abort, alloc: Global, plan: &Plan, state: &mut u64) -> Result<(), AllocError> {
    let mut told = Told::of(alloc, plan, time(rt, 0))?;
    tell(rt, alloc, plan, &mut told, state)?;
    for number in 0..24 {
        agrees(rt, alloc, plan, &told, time(rt, number))?;
    }
    Ok(())
}

// A plan of three random forms, one over the other, and now and then sums over them.
fn plan(alloc: Global, state: &mut u64) -> Result<Plan, AllocError> {
    let mut plan = Plan::Table(1 + next(state, 2));
    for _ in 0..3 {
        plan = stacked(alloc, plan, next(state, 7))?;
    }
    if next(state, 3) == 0 {
        return group(alloc, plan, &[0], Aggregate::Sum(1));
    }
    Ok(plan)
}

#[test]
fn dataflows_follow_their_plans(rt: HostRuntime) -> Result<(), Fail> {
    let mut state = 1;
    for _ in 0..40 {
        let plan = plan(rt.alloc(), &mut state)?;
        follows(&rt, rt.alloc(), &plan, &mut state)?;
    }
    Ok(())
}
