//! The rows that tables have.
ghost use Rattle.std.specs.Prelude.{◌≡◌, ◌==◌, ℕ, if◌then◌else◌, IfOk, IfSome, IsTrue, OnOk};
ghost use Rattle.mz_updates.specs.Contents.{stamped};
ghost use Rattle.mz_maintained.specs.Tables.{bag_at, AreGrown, IsFitting, IsGrown};

use crate::masses::{are_small, fit_a_table};
use indexmap::IndexMap;
use mz_bag::{Bag, CountedRows};
use mz_time::Time;
use mz_updates::Updates;
use mz_value::TryCopy;
use std::alloc::{AllocError, Global};

/// The updates of rows at a time. O(m), where there are m rows.
pub fn updates_at(alloc: Global, time: Time, rows: CountedRows) -> Result<Updates, AllocError>
    ensures { IfOk result (λ updates. updates ≡ stamped time rows) }
{
    let mut updates = Updates::empty(alloc);
    updates.append(time, rows)?;
    Ok(updates)
}

// The bag, where it has no more rows than a table may.
fn fitting(alloc: Global, bag: Bag) -> Result<Option<Bag>, AllocError>
    ensures { IfOk result (λ found. IfSome found (IsFitting bag)) }
{
    let rows = bag.counted()?;
    let all = updates_at(alloc, Time::zero(), rows)?;
    if fit_a_table(&all) {
        Ok(Some(bag))
    } else {
        Ok(None)
    }
}

// The bag with rows more, where that is no more than a table may have.
fn grown(alloc: Global, bag: &Bag, rows: &CountedRows) -> Result<Option<Bag>, AllocError>
    ensures { IfOk result (λ found. IfSome found (IsGrown bag.now rows.now)) }
{
    let mut all = updates_at(alloc, Time::zero(), bag.counted()?)?;
    all.append(Time::zero(), rows.try_copy(alloc)?)?;
    if are_small(&all) {
        fitting(alloc, all.contents(Time::zero())?)
    } else {
        Ok(None)
    }
}

// The bag of a table with rows more, where that is no more than a table may have.
fn grown_at(
    alloc: Global,
    tables: &IndexMap<u64, Bag>,
    table: u64,
    rows: &CountedRows,
) -> Result<Option<Bag>, AllocError>
    ensures { IfOk result (λ found. IfSome found
        (IsGrown (bag_at tables.now.entries table) rows.now)) }
{
    match tables.get(&table) {
        Some(bag) => grown(alloc, bag, rows),
        None => grown(alloc, &Bag::empty(alloc), rows),
    }
}

// Gives a table another bag.
fn put(tables: &mut IndexMap<u64, Bag>, table: u64, bag: Bag) -> Result<(), AllocError>
    ensures { OnOk result ((item : ℕ) → bag_at tables.new.entries item
        ≡ (if table == item then bag else bag_at tables.old.entries item)) }
{
    tables.insert(table, bag)?;
    Ok(())
}

/// Adds rows to a table, where it has no more then than it may, and says whether it does. O(n log n), where the
/// table has n rows with these.
pub fn grow(
    alloc: Global,
    tables: &mut IndexMap<u64, Bag>,
    table: u64,
    rows: &CountedRows,
) -> Result<bool, AllocError>
    ensures { IfOk result (λ grew. IsTrue grew
        → AreGrown table rows.now tables.old.entries tables.new.entries) }
{
    match grown_at(alloc, tables, table, rows)? {
        Some(bag) => {
            put(tables, table, bag)?;
            Ok(true)
        }
        None => Ok(false),
    }
}
