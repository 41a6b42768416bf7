//! Random steps, by a fixed generator: what an operator answers is at each time what its plan gives.
ghost use Rattle.std.specs.Prelude.{◌≡◌, ◌<◌, ◌≤◌, ◌^◌, [], IfOk, OnOk};
ghost use Rattle.mz_bag.specs.Mass.{IsLight};
ghost use Rattle.mz_updates.specs.Contents.{weights};

use crate::any::{AnyOp, tell_any};
use crate::texts::{row, time};
use crate::told::{Told, want_small};
use crate::worked::{aggregates, distinct, groups, places};
use mz_bag::Bag;
use mz_eval::{eval, is_bounded};
use mz_ops::Operator;
use mz_plan::{MadePlans, Plan, TableBags};
use mz_time::Time;
use mz_updates::Updates;
use sqlite_items::Boxed;
use std::alloc::{AllocError, Global};
use std::process::Abort;
use std::test::Fail;

// The generator's next number below a bound.
fn next(state: &mut u64, bound: u64) -> u64
    requires { 0 < bound }
    ensures { result < bound }
{
    *state = state
        .wrapping_mul(6_364_136_223_846_793_005)
        .wrapping_add(1_442_695_040_888_963_407);
    (*state >> 33) % bound
}

// A row of a few.
fn letters(state: &mut u64) -> &'static str {
    match next(state, 6) {
        0 => "11",
        1 => "12",
        2 => "2<",
        3 => "2a",
        4 => "1",
        _ => "",
    }
}

// A few changes at two times from a first one on.
fn changes(
    rt: &impl Abort,
    alloc: Global,
    state: &mut u64,
    first: u64,
) -> Result<Updates, AllocError>
    requires { first < 2 ^ 32 }
{
    let mut updates = Updates::empty(alloc);
    for _ in 0..next(state, 4) {
        let row = row(alloc, letters(state))?;
        let at = time(rt, first + next(state, 2));
        updates.push(row, at, i128::from(next(state, 4)) - 1)?;
    }
    Ok(updates)
}

// The bag of the contents at a time, where the diffs are small in all.
fn contents(rt: &impl Abort, updates: &Updates, t: Time) -> Result<Bag, AllocError> {
    want_small(rt, updates);
    updates.contents(t)
}

// What was told at a time, as the tables 1 and 2.
fn tables(rt: &impl Abort, alloc: Global, told: &Told, t: Time) -> Result<TableBags, AllocError> {
    let mut bags = Vec::new(alloc);
    bags.push((1, contents(rt, &told.left, t)?))?;
    bags.push((2, contents(rt, &told.right, t)?))?;
    Ok(TableBags {
        bags,
        plans: MadePlans::from_vec(Vec::new(alloc)),
    })
}

// That what was answered contains at a time what the plan gives of what was told.
fn agrees(
    rt: &impl Abort,
    alloc: Global,
    plan: &Plan,
    told: &Told,
    t: Time,
) -> Result<(), AllocError> {
    let tables = tables(rt, alloc, told, t)?;
    assert!(rt; is_bounded(alloc, plan, &tables)?);
    let wanted = eval(alloc, plan, &tables)?;
    let found = contents(rt, &told.out, t)?;
    assert_eq!(rt;
        found.into_counted()?,
        wanted.into_counted()?,
        "at {}",
        t.number()
    );
    Ok(())
}

// Tells a fresh operator random steps.
fn told(rt: &impl Abort, alloc: Global, op: &mut AnyOp) -> Result<Told, AllocError>
    requires fresh { ⟦<AnyOp as Operator>⟧.stands op.old [] [] }
    requires upper { ⟦<AnyOp as Operator>⟧.upper op.old ≡ 0 }
{
    let mut state = 1;
    let mut told = Told::nothing(alloc);
    'steps: for step in 0..20 {
        let left = changes(rt, alloc, &mut state, 2 * step)?;
        let right = changes(rt, alloc, &mut state, 2 * step)?;
        tell_any(
            rt,
            alloc,
            op,
            &mut told,
            left,
            right,
            time(rt, 2 * step + 2),
        )?;
    }
    Ok(told)
}

// That a fresh operator gives, through random steps, what a plan does.
fn follows(rt: &impl Abort, alloc: Global, op: &mut AnyOp, plan: &Plan) -> Result<(), AllocError>
    requires fresh { ⟦<AnyOp as Operator>⟧.stands op.old [] [] }
    requires upper { ⟦<AnyOp as Operator>⟧.upper op.old ≡ 0 }
{
    let told = told(rt, alloc, op)?;
    for number in 0..40 {
        agrees(rt, alloc, plan, &told, time(rt, number))?;
    }
    Ok(())
}

// A table, below an operator.
fn table(alloc: Global, number: u64) -> Result<Boxed<Plan>, AllocError> {
    Boxed::new(alloc, Plan::Table(number))
}

#[test]
fn groups_follow_their_plan(rt: HostRuntime) -> Result<(), Fail> {
    let plan = Plan::Group(
        table(rt.alloc(), 1)?,
        places(rt.alloc(), 1)?,
        aggregates(rt.alloc())?,
    );
    follows(&rt, rt.alloc(), &mut groups(rt.alloc(), 1)?, &plan)?;
    Ok(())
}

#[test]
fn distinct_rows_follow_their_plan(rt: HostRuntime) -> Result<(), Fail> {
    let plan = Plan::Distinct(table(rt.alloc(), 1)?);
    follows(&rt, rt.alloc(), &mut distinct(rt.alloc()), &plan)?;
    Ok(())
}
