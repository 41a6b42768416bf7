//! What an operator was told, and a step of whatever is an operator.
ghost use Rattle.std.specs.Prelude.{◌≡◌, ◌≤◌, ◌^◌, ◌+◌, ◌++◌, ◌∷◌, [], nat_abs, true, IsTrue, OnOk, SomeIff};
ghost use Rattle.mz_bag.specs.Mass.{mass, IsLight};
ghost use Rattle.mz_updates.specs.Contents.{weights, IsBefore, IsFrom};
ghost use Rattle.mz_reduce_tests.specs.Told.{IsTold};

use mz_ops::Operator;
use mz_time::Time;
use mz_updates::{Update, Updates};
use std::alloc::{AllocError, Global};
use std::process::Abort;

/// What an operator was told on each side up to a time, and what it answered.
#[derive(Drop)]
pub struct Told {
    pub left: Updates,
    pub right: Updates,
    pub out: Updates,
    pub upper: Time,
}

impl Told {
    /// Nothing.
    pub fn nothing(alloc: Global) -> Told
        ensures left { result.left ≡ [] }
        ensures right { result.right ≡ [] }
        ensures out { result.out ≡ [] }
        ensures upper { result.upper ≡ 0 }
    {
        Told {
            left: Updates::empty(alloc),
            right: Updates::empty(alloc),
            out: Updates::empty(alloc),
            upper: Time::zero(),
        }
    }
}

// Puts updates behind others.
fn push_all(updates: &mut Updates, more: Updates) -> Result<(), AllocError>
    ensures { OnOk result (updates.new ≡ updates.old ++ more) }
{
    'more: for Update { row, time, diff } in more.into_vec() {
        updates.push(row, time, diff)?;
    }
    Ok(())
}

/// Tells whatever is an operator a step, by its law alone.
pub fn tell<O: Operator>(
    alloc: Global,
    op: &mut O,
    told: &mut Told,
    left: Updates,
    right: Updates,
    next: Time,
) -> Result<(), AllocError>
    requires told { IsTold (O.meaning op.old) (O.stands op.old) told.old.left told.old.right told.old.out }
    requires later { O.upper op.old ≤ next }
    requires left_from { IsFrom (O.upper op.old) left }
    requires left_before { IsBefore next left }
    requires right_from { IsFrom (O.upper op.old) right }
    requires right_before { IsBefore next right }
    requires bears { O.bears op.old next left right }
    ensures told { OnOk result
        (IsTold (O.meaning op.new) (O.stands op.new) told.new.left told.new.right told.new.out) }
    ensures op { OnOk result (O.upper op.new ≡ next) }
    ensures upper { OnOk result (told.new.upper ≡ next) }
{
    let out = op.step(alloc, &left, &right, next)?;
    push_all(&mut told.left, left)?;
    push_all(&mut told.right, right)?;
    push_all(&mut told.out, out)?;
    told.upper = next;
    Ok(())
}

// Whether an update is at a time from `lower` on and below `upper`.
fn is_between(update: &Update, lower: Time, upper: Time) -> bool
    ensures { IsTrue result → (lower ≤ update.now.time) × (update.now.time + 1 ≤ upper) }
{
    lower <= update.time && update.time < upper
}

// Whether all updates are at times from `lower` on and below `upper`.
fn are_between(updates: &Updates, lower: Time, upper: Time) -> bool
    ensures from { IsTrue result → IsFrom lower updates.now }
    ensures before { IsTrue result → IsBefore upper updates.now }
{
    updates
        .as_slice()
        .iter()
        .all(|update| is_between(update, lower, upper))
}

// The sum of a mass and the size of a diff, where it is small.
fn added(first: u64, diff: i128) -> Option<u64>
    ensures { SomeIff result (first + nat_abs diff ≤ 2 ^ 40) (first + nat_abs diff) }
{
    let size = u64::try_from(diff.unsigned_abs()).ok()?;
    let sum = first.checked_add(size)?;
    if sum <= 1 << 40 { Some(sum) } else { None }
}

// The mass of updates, where it is small.
fn mass(updates: &[Update]) -> Option<u64>
    ensures { SomeIff result (mass (weights updates.now) ≤ 2 ^ 40) (mass (weights updates.now)) }
{
    let mut total = 0;
    'updates: for update in updates {
        total = added(total, update.diff)?;
    }
    Some(total)
}

// Whether the diffs of updates are small in all.
fn are_small(updates: &Updates) -> bool
    ensures { IsTrue result → mass (weights updates.now) ≤ 2 ^ 40 }
{
    mass(updates.as_slice()).is_some()
}

/// Stops a test unless all updates are at times from `lower` on and below `upper`.
pub fn want_between(rt: &impl Abort, updates: &Updates, lower: Time, upper: Time)
    ensures from { IsFrom lower updates.now }
    ensures before { IsBefore upper updates.now }
{
    assert!(rt; are_between(updates, lower, upper));
}

/// Stops a test unless the diffs of updates are small in all.
pub fn want_small(rt: &impl Abort, updates: &Updates)
    ensures { mass (weights updates.now) ≤ 2 ^ 40 }
{
    assert!(rt; are_small(updates));
}
