//! Updates moved up to a time, and those of one row and time added up, in place.
ghost use Rattle.std.specs.Prelude.{◌≡◌, ◌+◌, ◌<◌, ◌+ℤ◌, ◌&&◌, ℕ, nat_le, nat_lt, not, pos, length, List, FitsSigned, IfOk};
ghost use Rattle.std.specs.Int.{w128, int_wrap};
ghost use Rattle.std.specs.List.{IsDistinct};
ghost use Rattle.std.specs.List.Sorted.{IsPermutation, IsSorted};
ghost use Rattle.std.specs.Map.{keys_of};
ghost use Rattle.std.specs.Ordering.{int_eq};
ghost use Rattle.mz_value.specs.declared.datum.Datum.{Datum};
ghost use Rattle.mz_value.specs.Row.{row_eq};
ghost use Rattle.mz_bag.specs.Bag.{Fits};
ghost use Rattle.mz_bag.specs.Weighted.{count, bag_of};
ghost use Rattle.mz_updates.specs.Carrying.{carried, carried_at, emptied, is_twin, with_change, AreInRange};
ghost use Rattle.mz_updates.specs.Consolidated.{update_cmp, IsConsolidated};
ghost use Rattle.mz_updates.specs.Contents.{between, compacted, later as later_of, moved_up, stamped, weights, HasSums, IsBefore, IsFrom, SameContents};

use crate::Update;
use mz_bag::Bag;
use mz_time::Time;
use mz_value::{Row, TryCopy};
use std::alloc::{AllocError, Global};
use std::cmp::Ordering;

// Whether a time is from `lower` on and below `upper`.
fn is_between(time: Time, lower: u64, upper: u64) -> bool
    ensures { result ≡ (nat_le lower time && nat_lt time upper) }
{
    lower <= time.number() && time.number() < upper
}

/// A copy of the updates at times from `lower` on and below `upper`, in their order.
pub fn copied_between(
    alloc: Global,
    updates: &[Update],
    lower: u64,
    upper: u64,
) -> Result<Vec<Update>, AllocError>
    ensures { IfOk result (λ copy. copy.items ≡ between lower upper updates.now) }
{
    let mut copy = Vec::new(alloc);
    'updates: for update in updates {
        if is_between(update.time, lower, upper) {
            copy.push(update.try_copy(alloc)?)?;
        }
    }
    Ok(copy)
}

/// Each row with its count as the diff at a time, in their order. No row is copied.
pub fn stamped_rows(
    alloc: Global,
    time: Time,
    rows: Vec<(Row, i128)>,
) -> Result<Vec<Update>, AllocError>
    ensures { IfOk result (λ updates. updates.items ≡ stamped time rows.items) }
{
    let mut updates = Vec::with_capacity(alloc, rows.len())?;
    'rows: for (row, diff) in rows {
        updates.push(Update { row, time, diff })?;
    }
    Ok(updates)
}

// The later of two times.
fn later(time: Time, since: Time) -> Time
    ensures { result ≡ later_of time since }
{
    if time <= since { since } else { time }
}

// Moves an update up to a time.
fn move_one(update: &mut Update, since: Time)
    ensures { update.new ≡ moved_up since update.old }
{
    update.time = later(update.time, since);
}

/// Moves each update up to a time.
pub fn move_up(updates: &mut Vec<Update>, since: Time)
    ensures { updates.new.items ≡ compacted since updates.old.items }
{
    'updates: for place in 0..updates.len() {
        move_one(&mut updates[place], since);
    }
}

// Which of two updates stands first.
fn order(first: &Update, second: &Update) -> Ordering
    ensures { result ≡ update_cmp first.now second.now }
{
    first
        .time
        .cmp(&second.time)
        .then(first.row.cmp(&second.row))
}

// Whether two updates are of one row and time.
fn are_twins(first: &Update, second: &Update) -> bool
    ensures { result ≡ is_twin first.now second.now }
{
    order(first, second).is_eq()
}

// Takes the diff out of an update.
fn emptied_diff(update: &mut Update) -> i128
    ensures diff { result ≡ update.old.diff }
    ensures emptied { update.new ≡ emptied update.old }
{
    let diff = update.diff;
    update.diff = 0;
    diff
}

// Adds to the diff of an update.
fn add_diff(update: &mut Update, diff: i128)
    ensures { update.new ≡ record {
      row = update.old.row;
      time = update.old.time;
      diff = int_wrap w128 (update.old.diff +ℤ diff);
    } }
{
    update.diff = update.diff.wrapping_add(diff);
}

// Carries the diff at a place to the next one, where both are of one row and time.
fn carry(updates: &mut Vec<Update>, place: usize)
    requires { place + 1 < length updates.old.items }
    ensures { updates.new.items ≡ carried_at place updates.old.items }
{
    if are_twins(&updates[place], &updates[place + 1]) {
        let diff = emptied_diff(&mut updates[place]);
        add_diff(&mut updates[place + 1], diff);
    }
}

// Carries each diff to the last update of its row and time, where these stand side by side.
fn carry_all(updates: &mut Vec<Update>)
    ensures { updates.new.items ≡ carried updates.old.items }
{
    'places: for place in 0..updates.len().saturating_sub(1) {
        carry(updates, place);
    }
}

// Sorts updates by time and then by row.
fn sort(updates: &mut Vec<Update>)
    ensures moved { IsPermutation updates.old.items updates.new.items }
    ensures sorted { IsSorted update_cmp updates.new.items }
{
    updates.sort_unstable_by(|first, second| order(first, second));
}

// Whether an update changes its row's count.
fn is_change(update: &Update) -> bool
    ensures value { result ≡ not (int_eq update.now.diff (pos 0)) }
    ensures fits { FitsSigned w128 update.now.diff }
{
    update.diff != 0
}

// Drops the updates that change nothing.
fn drop_zeros(updates: &mut Vec<Update>)
    ensures kept { updates.new.items ≡ with_change updates.old.items }
    ensures fits { AreInRange updates.new.items }
{
    updates.retain(|update| is_change(update));
}

/// Adds up the updates of one row and time, and sorts by time and then by row. What adds up to 0 is gone.
pub fn merge(updates: &mut Vec<Update>)
    requires { HasSums updates.old.items }
    ensures contents { SameContents updates.new.items updates.old.items }
    ensures once { IsConsolidated updates.new.items }
    ensures from { (lower : ℕ) → IsFrom lower updates.old.items → IsFrom lower updates.new.items }
    ensures before { (upper : ℕ)
        → IsBefore upper updates.old.items → IsBefore upper updates.new.items }
{
    sort(updates);
    carry_all(updates);
    drop_zeros(updates);
}

// The bag of updates with a row each.
fn bag_of_rows(alloc: Global, updates: Vec<Update>) -> Result<Bag, AllocError>
    requires once { IsDistinct row_eq (keys_of (weights updates.items)) }
    requires fits { (row : List Datum) → Fits (count row (weights updates.items)) }
    ensures { IfOk result (λ bag. bag ≡ bag_of (weights updates.items)) }
{
    let mut bag = Bag::empty(alloc);
    'updates: for Update { row, time: _, diff } in updates {
        bag.add(row, diff)?;
    }
    Ok(bag)
}

/// The bag of updates that are not after a time: each row with the sum of its diffs.
pub fn bag_of_updates(alloc: Global, mut updates: Vec<Update>, t: Time) -> Result<Bag, AllocError>
    requires before { IsBefore (t + 1) updates.items }
    requires fits { (row : List Datum) → Fits (count row (weights updates.items)) }
    ensures { IfOk result (λ bag. bag ≡ bag_of (weights updates.items)) }
{
    move_up(&mut updates, t);
    merge(&mut updates);
    bag_of_rows(alloc, updates)
}
