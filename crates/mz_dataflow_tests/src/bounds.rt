//! What a test looks at before a run, which is then known to be within the bound.
ghost use Rattle.std.specs.Prelude.{◌≤◌, ◌+◌, nat_abs, length, IsTrue, OnOk, SomeIff};
ghost use Rattle.mz_bag.specs.Mass.{mass};
ghost use Rattle.mz_plan.specs.Leaves.{leaves_of};
ghost use Rattle.mz_plan.specs.Small.{most_rows, most_tables};
ghost use Rattle.mz_updates.specs.Contents.{weights, IsBefore, IsFrom};
ghost use Rattle.mz_dataflow_tests.specs.Told.{total, AreBefore};

use mz_plan::{MOST_ROWS, MOST_TABLES, Plan};
use mz_time::Time;
use mz_updates::{Update, Updates};
use std::alloc::{AllocError, Global};
use std::process::Abort;

// The sum of a mass and the size of a diff, where it is small.
fn added(first: u64, diff: i128) -> Option<u64>
    ensures { SomeIff result (first + nat_abs diff ≤ most_rows) (first + nat_abs diff) }
{
    let size = u64::try_from(diff.unsigned_abs()).ok()?;
    let sum = first.checked_add(size)?;
    if sum <= MOST_ROWS { Some(sum) } else { None }
}

// A mass and that of updates, where both together are small.
fn with_updates(first: u64, updates: &[Update]) -> Option<u64>
    requires { first ≤ most_rows }
    ensures { SomeIff result (first + mass (weights updates.now) ≤ most_rows)
        (first + mass (weights updates.now)) }
{
    let mut sum = first;
    'updates: for update in updates {
        sum = added(sum, update.diff)?;
    }
    Some(sum)
}

// The mass of all that was offered, where it is small.
fn mass_of(given: &[(u64, Updates)]) -> Option<u64>
    ensures { SomeIff result (total given.now ≤ most_rows) (total given.now) }
{
    let mut sum = 0;
    'given: for one in given {
        sum = with_updates(sum, one.1.as_slice())?;
    }
    Some(sum)
}

// Whether all that was offered is small.
fn are_small(given: &[(u64, Updates)]) -> bool
    ensures { IsTrue result → total given.now ≤ most_rows }
{
    mass_of(given).is_some()
}

// Whether updates are small.
fn is_small(updates: &Updates) -> bool
    ensures { IsTrue result → mass (weights updates.now) ≤ most_rows }
{
    with_updates(0, updates.as_slice()).is_some()
}

// Whether updates are from a time on.
fn is_from(updates: &Updates, lower: Time) -> bool
    ensures { IsTrue result → IsFrom lower updates.now }
{
    updates.as_slice().iter().all(|update| lower <= update.time)
}

// Whether updates are before a time.
fn is_before(updates: &Updates, upper: Time) -> bool
    ensures { IsTrue result → IsBefore upper updates.now }
{
    updates.as_slice().iter().all(|update| update.time < upper)
}

// Whether all that was offered is before a time.
fn are_before(given: &[(u64, Updates)], upper: Time) -> bool
    ensures { IsTrue result → AreBefore upper given.now }
{
    match given {
        [] => true,
        [first, rest @ ..] => is_before(&first.1, upper) && are_before(rest, upper),
    }
}

/// Stops a test unless updates are from a time on.
pub fn want_from(rt: &impl Abort, updates: &Updates, lower: Time)
    ensures { IsFrom lower updates.now }
{
    assert!(rt; is_from(updates, lower));
}

/// Stops a test unless updates are small.
pub fn want_light(rt: &impl Abort, updates: &Updates)
    ensures { mass (weights updates.now) ≤ most_rows }
{
    assert!(rt; is_small(updates));
}

/// Stops a test unless all that was offered is before a time.
pub fn want_before(rt: &impl Abort, given: &[(u64, Updates)], upper: Time)
    ensures { AreBefore upper given.now }
{
    assert!(rt; are_before(given, upper));
}

/// Stops a test unless all that was offered is small.
pub fn want_small(rt: &impl Abort, given: &[(u64, Updates)])
    ensures { total given.now ≤ most_rows }
{
    assert!(rt; are_small(given));
}

/// Stops a test unless a time isn't before another.
pub fn want_later(rt: &impl Abort, first: Time, second: Time)
    ensures { first ≤ second }
{
    assert!(rt; first <= second);
}

/// Stops a test unless a plan names few tables.
pub fn want_few(rt: &impl Abort, alloc: Global, plan: &Plan) -> Result<(), AllocError>
    ensures { OnOk result (length (leaves_of plan.now) ≤ most_tables) }
{
    let leaves = plan.leaves(alloc)?;
    let are_few = leaves.len() as u64 <= MOST_TABLES;
    assert!(rt; are_few);
    Ok(())
}
