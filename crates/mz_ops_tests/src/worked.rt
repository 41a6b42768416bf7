//! Each operator worked by hand.
ghost use Rattle.std.specs.Prelude.{◌≡◌, [], IfOk};

use crate::any::{AnyOp, answers};
use crate::texts::{Change, time};
use mz_ops::{FilterOp, JoinOp, Operator, ProjectOp, UnionOp};
use mz_plan::{Cond, Operand, Pairs, Places};
use mz_statement::Op;
use mz_value::Datum;
use std::alloc::{AllocError, Global};
use std::process::Abort;
use std::test::Fail;

/// The condition that the value at a place is the INT 1.
pub fn is_one(place: u64) -> Cond {
    Cond::Compare(place, Op::Eq, Operand::Literal(Datum::Int(1)))
}

/// Pairs of one place on each side.
pub fn pairs(alloc: Global, left: u64, right: u64) -> Result<Pairs, AllocError> {
    Ok(Pairs::from_vec(vec![in alloc; (left, right)]?))
}

/// A place.
pub fn places(alloc: Global, place: u64) -> Result<Places, AllocError> {
    Ok(Places::from_vec(vec![in alloc; place]?))
}

/// A join, which was told nothing yet.
pub fn join(alloc: Global, left: u64, right: u64) -> Result<AnyOp, AllocError>
    ensures fresh { IfOk result (λ op. ⟦<AnyOp as Operator>⟧.stands op [] []) }
    ensures upper { IfOk result (λ op. ⟦<AnyOp as Operator>⟧.upper op ≡ 0) }
{
    let pairs = pairs(alloc, left, right)?;
    Ok(AnyOp::Join(JoinOp::of(alloc, pairs)))
}

/// A projection to a place, which was told nothing yet.
pub fn project(alloc: Global, place: u64) -> Result<AnyOp, AllocError>
    ensures fresh { IfOk result (λ op. ⟦<AnyOp as Operator>⟧.stands op [] []) }
    ensures upper { IfOk result (λ op. ⟦<AnyOp as Operator>⟧.upper op ≡ 0) }
{
    let places = places(alloc, place)?;
    Ok(AnyOp::Project(ProjectOp::of(places)))
}

/// A filter for the INT 1 at a place, which was told nothing yet.
pub fn filter(place: u64) -> AnyOp
    ensures fresh { ⟦<AnyOp as Operator>⟧.stands result [] [] }
    ensures upper { ⟦<AnyOp as Operator>⟧.upper result ≡ 0 }
{
    AnyOp::Filter(FilterOp::of(is_one(place)))
}

/// A union that was told nothing yet, and whose past before a time may go.
pub fn union(rt: &impl Abort, since: u64) -> AnyOp
    ensures fresh { ⟦<AnyOp as Operator>⟧.stands result [] [] }
    ensures upper { ⟦<AnyOp as Operator>⟧.upper result ≡ 0 }
{
    let mut op = AnyOp::Union(UnionOp::empty());
    op.allow(time(rt, since));
    op
}

// That an operator that was told nothing yet answers this.
fn gives(
    rt: &impl Abort,
    alloc: Global,
    op: &mut AnyOp,
    left: &[Change],
    right: &[Change],
    uppers: &[u64],
    wanted: &str,
) -> Result<(), AllocError>
    requires fresh { ⟦<AnyOp as Operator>⟧.stands op.old [] [] }
    requires upper { ⟦<AnyOp as Operator>⟧.upper op.old ≡ 0 }
{
    let answer = answers(rt, alloc, op, left, right, uppers)?;
    assert_eq!(rt; answer.as_str(), wanted);
    Ok(())
}

// That the join on the first values answers this.
fn join_gives(
    rt: &impl Abort,
    alloc: Global,
    left: &[Change],
    right: &[Change],
    uppers: &[u64],
    wanted: &str,
) -> Result<(), AllocError> {
    let mut op = join(alloc, 0, 0)?;
    gives(rt, alloc, &mut op, left, right, uppers, wanted)
}

#[test]
fn what_is_new_on_both_sides_joins_once(rt: HostRuntime) -> Result<(), Fail> {
    let right = [("1b", 1, 1), ("2b", 1, 1)];
    join_gives(
        &rt,
        rt.alloc(),
        &[("1a", 1, 1)],
        &right,
        &[2],
        "1a1b at 1: 1; ",
    )?;
    Ok(())
}

#[test]
fn a_left_row_takes_its_matches_with_it(rt: HostRuntime) -> Result<(), Fail> {
    let left = [("1a", 1, 1), ("1a", 3, -1)];
    let wanted = "1a1b at 1: 1; 1a1b at 3: -1; ";
    join_gives(
        &rt,
        rt.alloc(),
        &left,
        &[("1b", 1, 1)],
        &[0, 2, 2, 3, 4],
        wanted,
    )?;
    Ok(())
}

#[test]
fn a_row_comes_and_goes_in_one_step(rt: HostRuntime) -> Result<(), Fail> {
    let left = [("1a", 1, 1), ("1a", 2, -1), ("1c", 3, 1), ("1c", 3, -1)];
    let wanted = "1a1b at 1: 1; 1a1b at 2: -1; ";
    join_gives(&rt, rt.alloc(), &left, &[("1b", 1, 1)], &[4], wanted)?;
    Ok(())
}

#[test]
fn a_table_joins_itself(rt: HostRuntime) -> Result<(), Fail> {
    let rows = [("1a", 1, 1), ("1b", 2, 2)];
    let wanted = "1a1a at 1: 1; 1a1b at 2: 2; 1b1a at 2: 2; 1b1b at 2: 4; ";
    join_gives(&rt, rt.alloc(), &rows, &rows, &[2, 3], wanted)?;
    Ok(())
}

#[test]
fn counts_are_multiplied(rt: HostRuntime) -> Result<(), Fail> {
    let left = [("1a", 1, 65_536)];
    let right = [("1b", 1, 65_536)];
    join_gives(
        &rt,
        rt.alloc(),
        &left,
        &right,
        &[2],
        "1a1b at 1: 4294967296; ",
    )?;
    Ok(())
}

#[test]
fn the_last_time_is_reached(rt: HostRuntime) -> Result<(), Fail> {
    let last = 9_223_372_036_854_775_806;
    let wanted = "1a1b at 9223372036854775806: 1; ";
    join_gives(
        &rt,
        rt.alloc(),
        &[("1a", last, 1)],
        &[("1b", 1, 1)],
        &[last + 1],
        wanted,
    )?;
    Ok(())
}

#[test]
fn a_value_that_a_row_lacks_is_false(rt: HostRuntime) -> Result<(), Fail> {
    let mut op = join(rt.alloc(), 1, 0)?;
    let left = [("1", 0, 1), ("2a", 0, 1)];
    let right = [("", 0, 1), ("a", 0, 1)];
    let wanted = "1 at 0: 1; 2aa at 0: 1; ";
    gives(&rt, rt.alloc(), &mut op, &left, &right, &[1], wanted)?;
    Ok(())
}

#[test]
fn a_filter_keeps_what_meets_it(rt: HostRuntime) -> Result<(), Fail> {
    let rows = [
        ("1a", 1, 2),
        ("2a", 1, 1),
        ("a", 1, 1),
        ("", 1, 1),
        ("1a", 2, -1),
    ];
    let wanted = "1a at 1: 2; 1a at 2: -1; ";
    gives(&rt, rt.alloc(), &mut filter(0), &rows, &[], &[2, 3], wanted)?;
    Ok(())
}

#[test]
fn a_projection_adds_up(rt: HostRuntime) -> Result<(), Fail> {
    let mut op = project(rt.alloc(), 1)?;
    let rows = [("1a", 1, 2), ("2a", 1, 1), ("1", 1, 1)];
    let wanted = "a at 1: 3; false at 1: 1; ";
    gives(&rt, rt.alloc(), &mut op, &rows, &[], &[2], wanted)?;
    Ok(())
}

#[test]
fn a_union_adds_both_sides(rt: HostRuntime) -> Result<(), Fail> {
    let left = [("1a", 1, 2), ("b", 0, 1)];
    let right = [("1a", 1, -2), ("b", 0, 1)];
    gives(
        &rt,
        rt.alloc(),
        &mut union(&rt, 7),
        &left,
        &right,
        &[2],
        "b at 0: 2; ",
    )?;
    Ok(())
}
