//! How updates come behind others, and how those that the since has passed go among the rows.
ghost use Rattle.std.specs.Prelude.{◌≡◌, ◌+◌, ◌≤◌, ◌++◌, ◌∷◌, [], ◌^◌, length, nat_abs, take, IfOk, IsTrue, OnOk, OnErr, SomeIff};
ghost use Rattle.mz_bag.specs.Mass.{mass, IsLight};
ghost use Rattle.mz_updates.specs.Contents.{stamp, stamped, weights, FitsFrom, IsBefore, SameFrom};
ghost use Rattle.mz_arrange.specs.Kept.{behind};

use crate::ordered::add_bag;
use mz_bag::MOST_COUNT;
use mz_time::Time;
use mz_updates::{Update, Updates, between};
use mz_value::{Row, TryCopy};
use std::alloc::{AllocError, Global};
use std::collections::BTreeMap;

// Puts updates behind others, or some of them where it answers an `Err`.
fn push_each(updates: &mut Updates, more: Updates) -> Result<(), AllocError>
    ensures kept { take (length updates.old) updates.new ≡ updates.old }
    ensures ok { OnOk result (updates.new ≡ updates.old ++ more) }
{
    'more: for Update { row, time, diff } in more.into_vec() {
        updates.push(row, time, diff)?;
    }
    Ok(())
}

/// Puts updates behind others: all of them, or none where it answers an `Err`.
/// O(m) amortized, where there are m of them.
pub fn push_all(updates: &mut Updates, more: Updates) -> Result<(), AllocError>
    ensures ok { OnOk result (updates.new ≡ updates.old ++ more) }
    ensures err { OnErr result (updates.new ≡ updates.old) }
{
    let len = updates.len();
    let pushed = push_each(updates, more);
    if pushed.is_err() {
        updates.truncate(len);
    }
    pushed
}

// The sum of a mass and the size of a diff, where it is within the bound.
fn added(first: u128, diff: i128) -> Option<u128>
    ensures { SomeIff result (first + nat_abs diff ≤ 2 ^ 100) (first + nat_abs diff) }
{
    let sum = first.checked_add(diff.unsigned_abs())?;
    if sum <= MOST_COUNT { Some(sum) } else { None }
}

// The mass of updates, where it is within the bound.
fn mass(updates: &[Update]) -> Option<u128>
    ensures { SomeIff result (mass (weights updates.now) ≤ 2 ^ 100) (mass (weights updates.now)) }
{
    let mut total = 0;
    'updates: for update in updates {
        total = added(total, update.diff)?;
    }
    Some(total)
}

// Whether updates are light: then a bag can have what they contain.
fn is_light(updates: &[Update]) -> bool
    ensures { IsTrue result → IsLight (weights updates.now) }
{
    mass(updates).is_some()
}

// Puts what updates contain at a since among the rows, and keeps the later ones behind them.
// O(k log n), where there are k updates and n rows.
fn take_in(
    alloc: Global,
    rows: &mut BTreeMap<Row, i128>,
    later: &mut Updates,
    since: Time,
    upper: Time,
) -> Result<(), AllocError>
    requires light { IsLight (weights later.old) }
    requires before { IsBefore upper later.old }
    requires fits { FitsFrom since (behind rows.old.entries later.old) }
    ensures before { IsBefore upper later.new }
    ensures same { SameFrom since
        (behind rows.new.entries later.new) (behind rows.old.entries later.old) }
{
    let due = later.contents(since)?;
    let rest = between(alloc, later.as_slice(), since.number() + 1, upper.number())?;
    add_bag(alloc, rows, due)?;
    *later = rest;
    Ok(())
}

/// Puts what updates contain at a since among the rows, where there are more than twice as many as
/// were left the last time. Gives how many are left then. The rare updates whose diffs together are
/// past the bound on counts stay where they are.
/// O(k log n), where there are k updates and n rows, and O(1) in between.
pub fn fold(
    alloc: Global,
    rows: &mut BTreeMap<Row, i128>,
    later: &mut Updates,
    since: Time,
    upper: Time,
    left: usize,
) -> Result<usize, AllocError>
    requires before { IsBefore upper later.old }
    requires fits { FitsFrom since (behind rows.old.entries later.old) }
    ensures before { IsBefore upper later.new }
    ensures same { SameFrom since
        (behind rows.new.entries later.new) (behind rows.old.entries later.old) }
{
    if later.len() / 2 <= left {
        return Ok(left);
    }
    let light = is_light(later.as_slice());
    if light {
        take_in(alloc, rows, later, since, upper)?;
    }
    Ok(later.len())
}

/// Puts a copy of a row, with its count as the diff at the first time, behind updates.
pub fn push_row(
    alloc: Global,
    updates: &mut Updates,
    row: &Row,
    count: i128,
) -> Result<(), AllocError>
    ensures { OnOk result (updates.new ≡ updates.old ++ stamp 0 (row.now, count) ∷ []) }
{
    updates.push(row.try_copy(alloc)?, Time::zero(), count)?;
    Ok(())
}

// The rows as updates at the first time, in order.
fn stamped_rows(alloc: Global, rows: &BTreeMap<Row, i128>) -> Result<Updates, AllocError>
    ensures { IfOk result (λ all. all ≡ stamped 0 rows.now.entries) }
{
    let mut all = Updates::empty(alloc);
    'rows: for (row, count) in rows.iter() {
        push_row(alloc, &mut all, row, *count)?;
    }
    Ok(all)
}

/// The rows as updates at the first time, and a copy of updates behind them.
/// O(n + k), where there are n rows and k updates.
pub fn listed(
    alloc: Global,
    rows: &BTreeMap<Row, i128>,
    later: &Updates,
) -> Result<Updates, AllocError>
    ensures { IfOk result (λ all. all ≡ behind rows.now.entries later.now) }
{
    let mut all = stamped_rows(alloc, rows)?;
    push_all(&mut all, later.try_copy(alloc)?)?;
    Ok(all)
}
