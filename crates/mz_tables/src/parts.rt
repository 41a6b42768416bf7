//! The parts of a table that a batch has, and how its updates are folded.
ghost use Rattle.std.specs.Prelude.{◌≡◌, ◌≤◌, ◌<◌, nat_le, length, take, IfOk};
ghost use Rattle.std.specs.List.{AllByRecursion as Each};
ghost use Rattle.mz_bag.specs.Weighted.{bag_of};
ghost use Rattle.mz_updates.specs.Batch.{AreChanges, AreContents, IsPart};
ghost use Rattle.mz_updates.specs.Consolidated.{IsConsolidated};
ghost use Rattle.mz_updates.specs.Contents.{contents, FitsFrom, SameFrom};
ghost use Rattle.mz_tables.specs.Kept.{book, IsKept, IsOrdered};

use mz_time::Time;
use mz_updates::{Update, Updates, between};
use std::alloc::{AllocError, Global};

// The place of the first update that isn't before a time, or the end.
fn first_from(updates: &[Update], ready: u64) -> usize
    requires { IsOrdered updates.now }
    ensures place { result ≤ length updates.now }
    ensures before { Each (λ u. u.time < ready) (take result updates.now) }
{
    updates.partition_point(|update| update.time.number() < ready)
}

// The whole table from its since up to a time.
fn whole_part(
    alloc: Global,
    updates: &[Update],
    since: Time,
    to: Time,
) -> Result<Updates, AllocError>
    requires fits { FitsFrom since updates.now }
    requires reaches { since ≤ to }
    ensures once { IfOk result (λ part. IsConsolidated part) }
    ensures part { IfOk result (λ part.
        AreContents (λ t. bag_of (contents t updates.now)) since to part) }
{
    let mut part = between(alloc, updates, 0, to.number() + 1)?;
    part.compact(since);
    part.consolidate();
    Ok(part)
}

// What changed in the table from a time on, up to another.
fn changed_part(
    alloc: Global,
    updates: &[Update],
    since: Time,
    ready: u64,
    to: Time,
) -> Result<Updates, AllocError>
    requires ordered { IsOrdered updates.now }
    requires fits { FitsFrom since updates.now }
    requires later { since < ready }
    ensures once { IfOk result (λ part. IsConsolidated part) }
    ensures part { IfOk result (λ part.
        AreChanges (λ t. bag_of (contents t updates.now)) ready to part) }
{
    let place = first_from(updates, ready);
    let mut part = between(alloc, &updates[place..], ready, to.number() + 1)?;
    part.consolidate();
    Ok(part)
}

/// The part of a table that one lacks who has no contents of it from `ready` on, up to a time.
/// O(k log k + log n), where k updates are from `ready` on; where it is whole, k of them are up to `to`.
pub fn part_of(
    alloc: Global,
    updates: &[Update],
    since: Time,
    ready: u64,
    to: Time,
    whole: bool,
) -> Result<Updates, AllocError>
    requires ordered { IsOrdered updates.now }
    requires fits { FitsFrom since updates.now }
    requires reaches { since ≤ to }
    requires whole { whole ≡ nat_le ready since }
    ensures once { IfOk result (λ part. IsConsolidated part) }
    ensures part { IfOk result (λ part.
        IsPart (λ t. bag_of (contents t updates.now)) since ready to whole part) }
{
    if whole {
        whole_part(alloc, updates, since, to)
    } else {
        changed_part(alloc, updates, since, ready, to)
    }
}

/// Moves updates up to a since and adds them up, where there are more than twice as many as after the last time.
/// Gives their number then. Takes no memory.
pub fn fold(updates: &mut Updates, since: Time, upper: u64, folded: usize) -> usize
    requires { IsKept (book updates.old since upper) }
    ensures kept { IsKept (book updates.new since upper) }
    ensures same { SameFrom since updates.new updates.old }
{
    if since.number() < upper && updates.len() / 2 > folded {
        updates.compact(since);
        updates.consolidate();
        updates.len()
    } else {
        folded
    }
}
