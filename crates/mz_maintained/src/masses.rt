//! Masses of rows, where they are small.
ghost use Rattle.std.specs.Prelude.{◌≤◌, ◌+◌, ◌^◌, nat_abs, IsTrue, SomeIff};
ghost use Rattle.mz_bag.specs.Mass.{mass};
ghost use Rattle.mz_plan.specs.Small.{most_rows};
ghost use Rattle.mz_updates.specs.Contents.{weights};

use mz_plan::MOST_ROWS;
use mz_updates::{Update, Updates};

// The sum of a mass and the size of a diff, where it is small.
fn added(first: u64, diff: i128) -> Option<u64>
    ensures { SomeIff result (first + nat_abs diff ≤ 2 ^ 40) (first + nat_abs diff) }
{
    let size = u64::try_from(diff.unsigned_abs()).ok()?;
    let sum = first.checked_add(size)?;
    if sum <= 1 << 40 { Some(sum) } else { None }
}

// The mass of updates, where it is small.
fn mass(updates: &[Update]) -> Option<u64>
    ensures { SomeIff result (mass (weights updates.now) ≤ 2 ^ 40) (mass (weights updates.now)) }
{
    let mut total = 0;
    'updates: for update in updates {
        total = added(total, update.diff)?;
    }
    Some(total)
}

/// Whether the mass of updates is small. Takes no memory.
pub fn are_small(updates: &Updates) -> bool
    ensures { IsTrue result → mass (weights updates.now) ≤ 2 ^ 40 }
{
    mass(updates.as_slice()).is_some()
}

/// Whether updates are of no more rows than a table may have. Takes no memory.
pub fn fit_a_table(updates: &Updates) -> bool
    ensures { IsTrue result → mass (weights updates.now) ≤ most_rows }
{
    match mass(updates.as_slice()) {
        Some(total) => total <= MOST_ROWS,
        None => false,
    }
}
