//! The counted times of each collection, at the place of its number.
ghost use Rattle.std.specs.Prelude.{◌≡◌, ◌<◌, ◌==◌, ℕ, OnOk, length};
ghost use Rattle.mz_counted.specs.Counted.{count, inserted, least_of, removed};
ghost use Rattle.mz_holds.specs.Kept.{changed_at, spare_at, times_at};

use mz_counted::Counted;
use mz_time::{Frontier, Time};
use std::alloc::{AllocError, Global};

// Makes places, up to that of a collection.
fn make_places(counted: &mut Vec<Counted>, alloc: Global, collection: u64) -> Result<(), AllocError>
    ensures same { (c : ℕ) → times_at c counted.new.items ≡ times_at c counted.old.items }
    ensures ok { OnOk result (collection < length counted.new.items) }
{
    'places: while counted.len() <= collection as usize {
        counted.push(Counted::empty(alloc))?;
    }
    Ok(())
}

/// Makes room for a time more of a collection. No time changes.
pub fn make_room(
    counted: &mut Vec<Counted>,
    alloc: Global,
    collection: u64,
) -> Result<(), AllocError>
    ensures same { (c : ℕ) → times_at c counted.new.items ≡ times_at c counted.old.items }
    ensures ok { OnOk result (0 < spare_at collection counted.new.items) }
{
    make_places(counted, alloc, collection)?;
    counted[collection as usize].reserve(1)
}

/// Counts a time more of a collection. Takes no memory.
pub fn come(counted: &mut Vec<Counted>, collection: u64, t: Time)
    requires { 0 < spare_at collection counted.old.items }
    ensures { (c : ℕ) → times_at c counted.new.items
        ≡ changed_at collection (inserted t) c (times_at c counted.old.items) }
{
    counted[collection as usize].insert(t);
}

/// Counts a time less of a collection. Takes no memory.
pub fn go(counted: &mut Vec<Counted>, collection: u64, t: Time)
    requires { 0 < count t (times_at collection counted.old.items) }
    ensures { (c : ℕ) → times_at c counted.new.items
        ≡ changed_at collection (removed t) c (times_at c counted.old.items) }
{
    counted[collection as usize].remove(t);
}

/// Counts a time less of a collection, and another more. Takes no memory.
pub fn shift(counted: &mut Vec<Counted>, collection: u64, from: Time, to: Time)
    requires { 0 < count from (times_at collection counted.old.items) }
    ensures { (c : ℕ) → times_at c counted.new.items
        ≡ changed_at collection (λ ts. inserted to (removed from ts)) c (times_at c counted.old.items) }
{
    counted[collection as usize].move_one(from, to);
}

/// How often a time is counted for a collection. O(log n).
pub fn how_often(counted: &[Counted], collection: u64, t: Time) -> u64
    ensures { result ≡ count t (times_at collection counted.now) }
{
    match counted.get(collection as usize) {
        Some(times) => times.count(t),
        None => 0,
    }
}

/// How many times are counted for a collection. O(1).
pub fn how_many(counted: &[Counted], collection: u64) -> u64
    ensures { result ≡ length (times_at collection counted.now) }
{
    match counted.get(collection as usize) {
        Some(times) => times.total(),
        None => 0,
    }
}

/// The least time that is counted for a collection. O(1).
pub fn least(counted: &[Counted], collection: u64) -> Frontier
    ensures { result ≡ least_of (times_at collection counted.now) }
{
    match counted.get(collection as usize) {
        Some(times) => times.least(),
        None => Frontier::Done,
    }
}
