//! Groups and distinct rows worked by hand.
ghost use Rattle.std.specs.Prelude.{◌≡◌, [], IfOk};

use crate::any::{AnyOp, answers, tell_any};
use crate::texts::{Change, time, updates, written};
use crate::told::Told;
use mz_ops::Operator;
use mz_plan::{Aggregate, Aggregates, Places};
use mz_reduce::{DistinctOp, GroupOp};
use mz_updates::Updates;
use mz_value::{Datum, Row};
use std::alloc::{AllocError, Global};
use std::process::Abort;
use std::test::Fail;

/// The first places of rows, as many as are asked for.
pub fn places(alloc: Global, count: u64) -> Result<Places, AllocError> {
    let mut places = Vec::new(alloc);
    for place in 0..count {
        places.push(place)?;
    }
    Ok(Places::from_vec(places))
}

/// How many rows there are, the sum of the values at place 1, and the least and the greatest of them.
pub fn aggregates(alloc: Global) -> Result<Aggregates, AllocError> {
    let mut aggregates = Vec::new(alloc);
    aggregates.push(Aggregate::Count)?;
    aggregates.push(Aggregate::Sum(1))?;
    aggregates.push(Aggregate::Min(1))?;
    aggregates.push(Aggregate::Max(1))?;
    Ok(Aggregates::from_vec(aggregates))
}

/// Groups by the first places, which were told nothing yet.
pub fn groups(alloc: Global, count: u64) -> Result<AnyOp, AllocError>
    ensures fresh { IfOk result (λ op. ⟦<AnyOp as Operator>⟧.stands op [] []) }
    ensures upper { IfOk result (λ op. ⟦<AnyOp as Operator>⟧.upper op ≡ 0) }
{
    let places = places(alloc, count)?;
    let aggregates = aggregates(alloc)?;
    Ok(AnyOp::Group(GroupOp::of(alloc, places, aggregates)))
}

// Groups by the first place, with the least value at place 1 and the greatest at place 2, which were
// told nothing yet.
fn ends(alloc: Global) -> Result<AnyOp, AllocError>
    ensures fresh { IfOk result (λ op. ⟦<AnyOp as Operator>⟧.stands op [] []) }
    ensures upper { IfOk result (λ op. ⟦<AnyOp as Operator>⟧.upper op ≡ 0) }
{
    let places = places(alloc, 1)?;
    let mut aggregates = Vec::new(alloc);
    aggregates.push(Aggregate::Min(1))?;
    aggregates.push(Aggregate::Max(2))?;
    let aggregates = Aggregates::from_vec(aggregates);
    Ok(AnyOp::Group(GroupOp::of(alloc, places, aggregates)))
}

/// Distinct rows, of which none was told yet.
pub fn distinct(alloc: Global) -> AnyOp
    ensures fresh { ⟦<AnyOp as Operator>⟧.stands result [] [] }
    ensures upper { ⟦<AnyOp as Operator>⟧.upper result ≡ 0 }
{
    AnyOp::Distinct(DistinctOp::empty(alloc))
}

// That an operator that was told nothing yet answers this.
fn gives(
    rt: &impl Abort,
    alloc: Global,
    op: &mut AnyOp,
    rows: &[Change],
    uppers: &[u64],
    wanted: &str,
) -> Result<(), AllocError>
    requires fresh { ⟦<AnyOp as Operator>⟧.stands op.old [] [] }
    requires upper { ⟦<AnyOp as Operator>⟧.upper op.old ≡ 0 }
{
    let answer = answers(rt, alloc, op, rows, &[], uppers)?;
    assert_eq!(rt; answer.as_str(), wanted);
    Ok(())
}

// That the groups by the first place answer this.
fn groups_give(
    rt: &impl Abort,
    alloc: Global,
    rows: &[Change],
    uppers: &[u64],
    wanted: &str,
) -> Result<(), AllocError> {
    let mut op = groups(alloc, 1)?;
    gives(rt, alloc, &mut op, rows, uppers, wanted)
}

// That the distinct rows are answered so.
fn distinct_give(
    rt: &impl Abort,
    alloc: Global,
    rows: &[Change],
    uppers: &[u64],
    wanted: &str,
) -> Result<(), AllocError> {
    gives(rt, alloc, &mut distinct(alloc), rows, uppers, wanted)
}

#[test]
fn a_group_changes_with_its_rows(rt: HostRuntime) -> Result<(), Fail> {
    let rows = [("12", 1, 1), ("15", 2, 1), ("22", 2, 1), ("12", 3, -1)];
    let wanted =
        "11222 at 1: 1; 11222 at 2: -1; 12725 at 2: 1; 21222 at 2: 1; 11555 at 3: 1; 12725 at 3: -1; ";
    groups_give(&rt, rt.alloc(), &rows, &[2, 3, 4], wanted)?;
    Ok(())
}

#[test]
fn a_group_goes_with_its_last_row(rt: HostRuntime) -> Result<(), Fail> {
    let rows = [("12", 1, 2), ("12", 2, -2)];
    let wanted = "12422 at 1: 1; 12422 at 2: -1; ";
    groups_give(&rt, rt.alloc(), &rows, &[2, 3], wanted)?;
    Ok(())
}

#[test]
fn a_key_comes_goes_and_comes_in_one_step(rt: HostRuntime) -> Result<(), Fail> {
    let rows = [
        ("13", 4, 1),
        ("12", 3, -1),
        ("12", 1, 1),
        ("12", 2, 1),
        ("12", 2, -1),
    ];
    let wanted = "11222 at 1: 1; 11222 at 3: -1; 11333 at 4: 1; ";
    groups_give(&rt, rt.alloc(), &rows, &[5], wanted)?;
    Ok(())
}

#[test]
fn many_rows_of_a_key_are_one_change(rt: HostRuntime) -> Result<(), Fail> {
    let rows = [
        ("11", 1, 1),
        ("12", 1, 1),
        ("13", 1, 1),
        ("21", 1, 1),
        ("11", 1, 2),
    ];
    let wanted = "15813 at 1: 1; 21111 at 1: 1; ";
    groups_give(&rt, rt.alloc(), &rows, &[2], wanted)?;
    Ok(())
}

#[test]
fn texts_have_a_least_and_a_greatest(rt: HostRuntime) -> Result<(), Fail> {
    let rows = [("1b", 1, 1), ("1c", 1, 1), ("1a", 2, 1), ("1c", 2, -1)];
    let wanted = "120bc at 1: 1; 120ab at 2: 1; 120bc at 2: -1; ";
    groups_give(&rt, rt.alloc(), &rows, &[3], wanted)?;
    Ok(())
}

#[test]
fn the_least_text_goes_and_comes_back(rt: HostRuntime) -> Result<(), Fail> {
    let rows = [("1b", 1, 1), ("1c", 1, 1), ("1b", 2, -1), ("1b", 3, 1)];
    let wanted = "120bc at 1: 1; 110cc at 2: 1; 120bc at 2: -1; 110cc at 3: -1; 120bc at 3: 1; ";
    groups_give(&rt, rt.alloc(), &rows, &[2, 3, 4], wanted)?;
    Ok(())
}

#[test]
fn the_least_goes_with_its_last_row(rt: HostRuntime) -> Result<(), Fail> {
    let rows = [
        ("12a", 1, 1),
        ("12b", 1, 1),
        ("15", 1, 1),
        ("12a", 2, -1),
        ("12b", 3, -1),
    ];
    let wanted = "13925 at 1: 1; 12725 at 2: 1; 13925 at 2: -1; 11555 at 3: 1; 12725 at 3: -1; ";
    groups_give(&rt, rt.alloc(), &rows, &[2, 3, 4], wanted)?;
    Ok(())
}

#[test]
fn two_places_have_their_own_ends(rt: HostRuntime) -> Result<(), Fail> {
    let rows = [("125", 1, 1), ("134", 1, 1), ("116", 2, 1), ("116", 3, -1)];
    let wanted = "125 at 1: 1; 116 at 2: 1; 125 at 2: -1; 116 at 3: -1; 125 at 3: 1; ";
    gives(
        &rt,
        rt.alloc(),
        &mut ends(rt.alloc())?,
        &rows,
        &[2, 3, 4],
        wanted,
    )?;
    Ok(())
}

// Rows of the key 1, each with one of the numbers below 300, at time 1.
fn numbered(rt: &impl Abort, alloc: Global) -> Result<Updates, AllocError> {
    let mut updates = Updates::empty(alloc);
    for number in 0..300 {
        let mut values = Vec::new(alloc);
        values.push(Datum::Int(1))?;
        values.push(Datum::Int(number))?;
        updates.push(Row::from_vec(values), time(rt, 1), 1)?;
    }
    Ok(updates)
}

// That groups that were told nothing yet answer for a key with many rows, and when the least goes.
fn many_rows(rt: &impl Abort, alloc: Global, op: &mut AnyOp) -> Result<(), AllocError>
    requires fresh { ⟦<AnyOp as Operator>⟧.stands op.old [] [] }
    requires upper { ⟦<AnyOp as Operator>⟧.upper op.old ≡ 0 }
{
    let mut told = Told::nothing(alloc);
    let came = numbered(rt, alloc)?;
    let none = Updates::empty(alloc);
    tell_any(rt, alloc, op, &mut told, came, none, time(rt, 2))?;
    let went = updates(rt, alloc, &[("10", 2, -1)], 2, 3)?;
    let none = Updates::empty(alloc);
    tell_any(rt, alloc, op, &mut told, went, none, time(rt, 3))?;
    let answer = written(alloc, &told.out)?;
    let wanted = "1300448500299 at 1: 1; 1299448501299 at 2: 1; 1300448500299 at 2: -1; ";
    assert_eq!(rt; answer.as_str(), wanted);
    Ok(())
}

#[test]
fn a_group_of_many_rows_has_its_ends(rt: HostRuntime) -> Result<(), Fail> {
    let mut op = groups(rt.alloc(), 1)?;
    many_rows(&rt, rt.alloc(), &mut op)?;
    Ok(())
}

#[test]
fn without_keys_there_is_one_group_or_none(rt: HostRuntime) -> Result<(), Fail> {
    let rows = [("12", 1, 1), ("23", 2, 1), ("12", 3, -1), ("23", 3, -1)];
    let wanted = "1222 at 1: 1; 1222 at 2: -1; 2523 at 2: 1; 2523 at 3: -1; ";
    let mut op = groups(rt.alloc(), 0)?;
    gives(&rt, rt.alloc(), &mut op, &rows, &[1, 2, 4], wanted)?;
    Ok(())
}

#[test]
fn the_greatest_ints_add_up(rt: HostRuntime) -> Result<(), Fail> {
    let rows = [("1>", 1, 65_536), ("2<", 1, 65_536)];
    let wanted = "16553614073748828979221474836472147483647 at 1: 1; \
        265536-140737488355328-2147483648-2147483648 at 1: 1; ";
    groups_give(&rt, rt.alloc(), &rows, &[2], wanted)?;
    Ok(())
}

#[test]
fn a_number_larger_than_an_int_is_left_out(rt: HostRuntime) -> Result<(), Fail> {
    let rows = [("12", 1, 1), ("1*", 1, 1), ("1*", 2, 1)];
    groups_give(&rt, rt.alloc(), &rows, &[2, 3], "11222 at 1: 1; ")?;
    Ok(())
}

#[test]
fn a_row_that_a_group_lacks_counts_too(rt: HostRuntime) -> Result<(), Fail> {
    let rows = [("12", 1, -1), ("13", 1, 1), ("13", 2, -1), ("12", 2, 1)];
    let wanted = "10123 at 1: 1; 10123 at 2: -1; ";
    groups_give(&rt, rt.alloc(), &rows, &[3], wanted)?;
    Ok(())
}

#[test]
fn each_row_is_there_once(rt: HostRuntime) -> Result<(), Fail> {
    let rows = [
        ("a", 1, 1),
        ("a", 2, 2),
        ("a", 3, -2),
        ("a", 4, -1),
        ("b", 4, 3),
    ];
    let wanted = "a at 1: 1; a at 4: -1; b at 4: 1; ";
    distinct_give(&rt, rt.alloc(), &rows, &[2, 3, 5], wanted)?;
    Ok(())
}

#[test]
fn a_row_that_lacks_is_there(rt: HostRuntime) -> Result<(), Fail> {
    let rows = [("a", 1, -1), ("a", 2, 2), ("a", 3, -1), ("", 3, 1)];
    let wanted = "a at 1: 1;  at 3: 1; a at 3: -1; ";
    distinct_give(&rt, rt.alloc(), &rows, &[4], wanted)?;
    Ok(())
}
