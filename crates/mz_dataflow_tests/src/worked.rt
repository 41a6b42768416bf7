//! Dataflows worked by hand.
ghost use Rattle.std.specs.Prelude.{OnOk};
ghost use Rattle.mz_dataflow_tests.specs.Told.{IsTold};

use crate::plans::{differs_from_many, group, join, project, stacked, union};
use crate::texts::{Change, counted, push_updates, time, update};
use crate::told::{Told, allow, offer, rows_at, run_to};
use mz_plan::{Aggregate, Plan};
use sqlite_items::Boxed;
use std::alloc::{AllocError, Global};
use std::process::Abort;
use std::test::Fail;

// Offers a change that is from a time on and before another.
fn offer_within(
    rt: &impl Abort,
    alloc: Global,
    plan: &Plan,
    told: &mut Told,
    change: Change,
    lower: u64,
    next: u64,
) -> Result<(), AllocError>
    requires { IsTold plan.now told.old.flow told.old.given.items }
    ensures { OnOk result (IsTold plan.now told.new.flow told.new.given.items) }
{
    if change.2 < lower || change.2 >= next {
        return Ok(());
    }
    let updates = update(rt, alloc, change)?;
    offer(rt, alloc, plan, told, change.0, updates)
}

// Offers those of some changes that are from the upper on and before a time, each by itself, in their order.
fn offer_each(
    rt: &impl Abort,
    alloc: Global,
    plan: &Plan,
    told: &mut Told,
    changes: &[Change],
    next: u64,
) -> Result<(), AllocError>
    requires { IsTold plan.now told.old.flow told.old.given.items }
    ensures { OnOk result (IsTold plan.now told.new.flow told.new.given.items) }
{
    let lower = told.flow.upper().number();
    'changes: for &change in changes {
        offer_within(rt, alloc, plan, told, change, lower, next)?;
    }
    Ok(())
}

// Tells a dataflow some changes, in steps to these uppers, and gives what each step changes of the plan's rows.
fn answers(
    rt: &impl Abort,
    alloc: Global,
    plan: &Plan,
    told: &mut Told,
    changes: &[Change],
    uppers: &[u64],
) -> Result<String, AllocError>
    requires { IsTold plan.now told.old.flow told.old.given.items }
    ensures { OnOk result (IsTold plan.now told.new.flow told.new.given.items) }
{
    let mut text = String::new(alloc);
    'steps: for &next in uppers {
        offer_each(rt, alloc, plan, told, changes, next)?;
        run_to(rt, alloc, plan, told, time(rt, next))?;
        push_updates(&mut text, told.flow.changes())?;
    }
    Ok(text)
}

// That the dataflow of a plan as of a time gives this.
fn gives_once(
    rt: &impl Abort,
    alloc: Global,
    plan: &Plan,
    as_of: u64,
    changes: &[Change],
    uppers: &[u64],
    wanted: &str,
) -> Result<(), AllocError> {
    let mut told = Told::of(alloc, plan, time(rt, as_of))?;
    let found = answers(rt, alloc, plan, &mut told, changes, uppers)?;
    assert_eq!(rt; found.as_str(), wanted);
    Ok(())
}

// That it does, or that another one does where there was no memory for the first.
fn gives(
    rt: &impl Abort,
    alloc: Global,
    plan: &Plan,
    as_of: u64,
    changes: &[Change],
    uppers: &[u64],
    wanted: &str,
) -> Result<(), AllocError> {
    if gives_once(rt, alloc, plan, as_of, changes, uppers, wanted).is_ok() {
        return Ok(());
    }
    gives_once(rt, alloc, plan, as_of, changes, uppers, wanted)
}

// The number of rows and the sum of the second values, for each first value of a table.
fn totals(alloc: Global) -> Result<Plan, AllocError> {
    group(alloc, Plan::Table(1), &[0], Aggregate::Sum(1))
}

#[test]
fn a_grouped_view_changes_in_three_rounds(rt: HostRuntime) -> Result<(), Fail> {
    let plan = totals(rt.alloc())?;
    let changes = [(1, "1>", 2, 2), (1, "2<", 2, 1), (1, "1>", 3, -2)];
    let wanted = "| 124294967294 at 2: 1; 21-2147483648 at 2: 1; | 124294967294 at 3: -1; | ";
    gives(&rt, rt.alloc(), &plan, 0, &changes, &[2, 3, 4], wanted)?;
    Ok(())
}

#[test]
fn a_leaf_is_offered_twice_in_a_turn(rt: HostRuntime) -> Result<(), Fail> {
    let plan = totals(rt.alloc())?;
    let changes = [
        (1, "12", 1, 1),
        (1, "13", 1, 1),
        (1, "12", 2, -1),
        (1, "12", 2, 1),
        (1, "14", 2, 1),
    ];
    let wanted = "125 at 1: 1; | 125 at 2: -1; 139 at 2: 1; | ";
    gives(&rt, rt.alloc(), &plan, 0, &changes, &[2, 3], wanted)?;
    Ok(())
}

#[test]
fn a_key_comes_goes_and_comes_in_one_step(rt: HostRuntime) -> Result<(), Fail> {
    let plan = totals(rt.alloc())?;
    let changes = [
        (1, "14", 4, 1),
        (1, "12", 3, -1),
        (1, "12", 1, 1),
        (1, "13", 2, 1),
        (1, "13", 3, -1),
    ];
    let wanted = "112 at 1: 1; 112 at 2: -1; 125 at 2: 1; 125 at 3: -1; 114 at 4: 1; | ";
    gives(&rt, rt.alloc(), &plan, 0, &changes, &[9], wanted)?;
    Ok(())
}

#[test]
fn without_keys_there_is_one_group_or_none(rt: HostRuntime) -> Result<(), Fail> {
    let plan = group(rt.alloc(), Plan::Table(1), &[], Aggregate::Sum(1))?;
    let changes = [
        (1, "12", 1, 1),
        (1, "23", 2, 1),
        (1, "12", 3, -1),
        (1, "23", 3, -1),
    ];
    let wanted = "| 12 at 1: 1; | 12 at 2: -1; 25 at 2: 1; | 25 at 3: -1; | ";
    gives(&rt, rt.alloc(), &plan, 0, &changes, &[1, 2, 3, 4], wanted)?;
    Ok(())
}

#[test]
fn texts_have_a_least(rt: HostRuntime) -> Result<(), Fail> {
    let plan = group(rt.alloc(), Plan::Table(1), &[0], Aggregate::Min(1))?;
    let changes = [
        (1, "1b", 1, 1),
        (1, "1c", 1, 1),
        (1, "1a", 2, 1),
        (1, "1a", 3, -1),
        (1, "1b", 3, -1),
    ];
    let wanted = "12b at 1: 1; | 12b at 2: -1; 13a at 2: 1; | 11c at 3: 1; 13a at 3: -1; | ";
    gives(&rt, rt.alloc(), &plan, 0, &changes, &[2, 3, 4], wanted)?;
    Ok(())
}

#[test]
fn both_ends_of_int_add_up(rt: HostRuntime) -> Result<(), Fail> {
    let plan = totals(rt.alloc())?;
    for (letters, wanted) in [
        ("1>", "165536140737488289792 at 1: 1; | "),
        ("1<", "165536-140737488355328 at 1: 1; | "),
    ] {
        gives(
            &rt,
            rt.alloc(),
            &plan,
            0,
            &[(1, letters, 1, 65_536)],
            &[2],
            wanted,
        )?;
    }
    Ok(())
}

#[test]
fn a_leaf_stands_in_two_places(rt: HostRuntime) -> Result<(), Fail> {
    let plan = join(rt.alloc(), Plan::Table(1), 1)?;
    let changes = [(1, "12", 1, 1), (1, "13", 2, 2)];
    let wanted = "1212 at 1: 1; | 1213 at 2: 2; 1312 at 2: 2; 1313 at 2: 4; | ";
    gives(&rt, rt.alloc(), &plan, 0, &changes, &[2, 3], wanted)?;
    Ok(())
}

#[test]
fn an_index_is_a_leaf_and_others_are_none(rt: HostRuntime) -> Result<(), Fail> {
    let changes = [(7, "12", 1, 1), (1, "13", 1, 1)];
    gives(
        &rt,
        rt.alloc(),
        &Plan::Index(7),
        0,
        &changes,
        &[2],
        "12 at 1: 1; | ",
    )?;
    Ok(())
}

#[test]
fn it_begins_at_its_as_of_and_comes_to_the_last_time(rt: HostRuntime) -> Result<(), Fail> {
    let plan = union(rt.alloc(), Plan::Table(1), 2)?;
    let last = (1u64 << 63) - 1;
    let changes = [(2, "2", 5, 2), (1, "1", 5, 1), (1, "1", last - 1, -1)];
    let wanted = "1 at 5: 1; 2 at 5: 2; | 1 at 9223372036854775806: -1; | ";
    gives(&rt, rt.alloc(), &plan, 5, &changes, &[6, last], wanted)?;
    Ok(())
}

#[test]
fn a_plan_over_no_rows_has_none(rt: HostRuntime) -> Result<(), Fail> {
    let changes = [(1, "12", 1, 1), (1, "12", 1, -1)];
    for form in 0..7 {
        let plan = stacked(rt.alloc(), Plan::Table(1), form)?;
        gives(&rt, rt.alloc(), &plan, 0, &changes, &[1, 2], "| | ")?;
    }
    gives(
        &rt,
        rt.alloc(),
        &Plan::Table(1),
        0,
        &changes,
        &[1, 2],
        "| | ",
    )?;
    gives(
        &rt,
        rt.alloc(),
        &Plan::Index(1),
        0,
        &changes,
        &[1, 2],
        "| | ",
    )?;
    Ok(())
}

// A table's rows through so many filters, projections and distinct rows by turns, one over the other.
fn nested(alloc: Global, many: u64) -> Result<Plan, AllocError> {
    let mut plan = Plan::Table(1);
    for place in 0..many {
        plan = stacked(alloc, plan, place % 3)?;
    }
    Ok(plan)
}

#[test]
fn a_thousand_views_stand_one_on_the_other(rt: HostRuntime) -> Result<(), Fail> {
    let plan = nested(rt.alloc(), 1000)?;
    gives(
        &rt,
        rt.alloc(),
        &plan,
        0,
        &[(1, "13", 1, 2)],
        &[2],
        "31 at 1: 1; | ",
    )?;
    Ok(())
}

#[test]
fn a_filter_has_thousands_of_conditions(rt: HostRuntime) -> Result<(), Fail> {
    let cond = differs_from_many(rt.alloc(), 9310)?;
    let plan = Plan::Filter(Boxed::new(rt.alloc(), Plan::Table(1))?, cond);
    gives(
        &rt,
        rt.alloc(),
        &plan,
        0,
        &[(1, "12", 1, 1)],
        &[2],
        "12 at 1: 1; | ",
    )?;
    Ok(())
}

// That a dataflow has these rows at a time.
fn has_rows(
    rt: &impl Abort,
    alloc: Global,
    told: &Told,
    number: u64,
    wanted: &str,
) -> Result<(), AllocError> {
    let rows = rows_at(rt, told, time(rt, number))?;
    let found = counted(alloc, &rows.into_counted()?)?;
    assert_eq!(rt; found.as_str(), wanted);
    Ok(())
}

// That a dataflow of totals has its rows where its past went.
fn has_rows_left(
    rt: &impl Abort,
    alloc: Global,
    plan: &Plan,
    told: &mut Told,
) -> Result<(), AllocError>
    requires { IsTold plan.now told.old.flow told.old.given.items }
{
    answers(
        rt,
        alloc,
        plan,
        told,
        &[(1, "12", 1, 1), (1, "13", 2, 1)],
        &[4],
    )?;
    has_rows(rt, alloc, told, 1, "112 x 1; ")?;
    allow(rt, plan, told, time(rt, 2));
    assert_eq!(rt; told.flow.since().number(), 2);
    has_rows(rt, alloc, told, 2, "125 x 1; ")?;
    has_rows(rt, alloc, told, 3, "125 x 1; ")?;
    answers(rt, alloc, plan, told, &[(1, "22", 4, 1)], &[5])?;
    has_rows(rt, alloc, told, 4, "125 x 1; 212 x 1; ")
}

#[test]
fn its_rows_are_read_at_each_time_that_is_left(rt: HostRuntime) -> Result<(), Fail> {
    let plan = totals(rt.alloc())?;
    let mut told = Told::of(rt.alloc(), &plan, time(&rt, 0))?;
    has_rows_left(&rt, rt.alloc(), &plan, &mut told)?;
    Ok(())
}
