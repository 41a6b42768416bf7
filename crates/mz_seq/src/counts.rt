//! Rows with their counts, as a table stores them: a row of the mark that is gone keeps its place with the count 0.
ghost use Rattle.std.specs.Prelude.{◌≡◌, ◌≤◌, ◌+ℤ◌, pos, false, true, is_some, List, Option, IfOk, OnOk, OnErr, if◌then◌else◌};
ghost use Rattle.std.specs.FinMap.{get};
ghost use Rattle.std.specs.List.{IsDistinct};
ghost use Rattle.std.specs.Ordering.{int_eq};
ghost use Rattle.indexmap.specs.IndexMap.{keys};
ghost use Rattle.mz_value.specs.declared.datum.Datum.{Datum};
ghost use Rattle.mz_value.specs.Row.{row_eq};
ghost use Rattle.mz_bag.specs.Bag.{count_in, map_of, Fits};
ghost use Rattle.mz_bag.specs.Weighted.{bag_of, each_once, negated, sum_of};
ghost use Rattle.mz_plan.specs.Small.{most_rows};
ghost use Rattle.mz_log.specs.CarriedOut.{rows_in};
ghost use Rattle.mz_seq.specs.Stored.{count_at, has_row, rows_now, AreUsed, Covers, IsUsed};

use indexmap::IndexMap;
use mz_bag::Bag;
use mz_value::{Row, TryCopy};
use std::alloc::AllocError;

// The sum of two counts.
fn sum(count: i128, diff: i128) -> i128
    requires { Fits (count +ℤ diff) }
    ensures { result ≡ count +ℤ diff }
{
    count + diff
}

// Makes a place for a row, with the count 0 where it had none. After an `Err` the row has none still.
fn make_place(counts: &mut IndexMap<Row, i128>, row: &Row) -> Result<(), AllocError>
    ensures counts { (q : List Datum)
        → count_at counts.new.entries q ≡ count_at counts.old.entries q }
    ensures kept { (q : List Datum)
        → has_row counts.new.entries q ≡ false → has_row counts.old.entries q ≡ false }
    ensures only { (q : List Datum) → row_eq q row.now ≡ false
        → has_row counts.new.entries q ≡ true → has_row counts.old.entries q ≡ true }
    ensures there { OnOk result (has_row counts.new.entries row.now ≡ true) }
{
    if !counts.contains_key(row) {
        counts.insert(row.try_copy(*counts.allocator())?, 0)?;
    }
    Ok(())
}

// Makes a place for each row of a change.
fn make_places(
    counts: &mut IndexMap<Row, i128>,
    change: &IndexMap<Row, i128>,
) -> Result<(), AllocError>
    ensures counts { (q : List Datum)
        → count_at counts.new.entries q ≡ count_at counts.old.entries q }
    ensures kept { (q : List Datum)
        → has_row counts.new.entries q ≡ false → has_row counts.old.entries q ≡ false }
    ensures only { (q : List Datum) → has_row change.now.entries q ≡ false
        → has_row counts.new.entries q ≡ true → has_row counts.old.entries q ≡ true }
    ensures there { OnOk result (Covers counts.new.entries (map_of change.now.entries)) }
{
    let _rows = change.len();
    'rows: for (row, _diff) in change.iter() {
        make_place(counts, row)?;
    }
    Ok(())
}

// Adds to the count of a row that has a place. A row without one stays without.
fn add_at(counts: &mut IndexMap<Row, i128>, row: &Row, diff: i128)
    requires fits { Fits (count_at counts.old.entries row.now +ℤ diff) }
    requires there { has_row counts.old.entries row.now ≡ false → diff ≡ pos 0 }
    ensures counts { (q : List Datum) → count_at counts.new.entries q
        ≡ count_at counts.old.entries q +ℤ (if row_eq q row.now then diff else pos 0) }
    ensures places { (q : List Datum)
        → has_row counts.new.entries q ≡ has_row counts.old.entries q }
{
    if let Some(place) = counts.get_index_of(row) {
        counts[place] = sum(counts[place], diff);
    }
}

/// Adds a change to the counts of its rows, each of which has a place. Takes no memory. O(m) expected, where the change
/// has m rows.
pub fn add_each(counts: &mut IndexMap<Row, i128>, change: &IndexMap<Row, i128>)
    requires fits { (q : List Datum)
        → Fits (count_at counts.old.entries q +ℤ count_in (map_of change.now.entries) q) }
    requires there { Covers counts.old.entries (map_of change.now.entries) }
    ensures counts { (q : List Datum) → count_at counts.new.entries q
        ≡ count_at counts.old.entries q +ℤ count_in (map_of change.now.entries) q }
    ensures places { (q : List Datum)
        → has_row counts.new.entries q ≡ has_row counts.old.entries q }
{
    let _rows = change.len();
    'rows: for (row, diff) in change.iter() {
        add_at(counts, row, *diff);
    }
}

// The count that is stored for a row.
fn count_of(counts: &IndexMap<Row, i128>, row: &Row) -> i128
    ensures { result ≡ count_at counts.now.entries row.now }
{
    counts.get(row).copied().unwrap_or(0)
}

// Takes out a row whose count is 0, unless the changes count it.
fn let_go(counts: &mut IndexMap<Row, i128>, row: &Row, changes: &Bag)
    ensures counts { (q : List Datum)
        → count_at counts.new.entries q ≡ count_at counts.old.entries q }
    ensures covers { Covers counts.old.entries changes.now
        → Covers counts.new.entries changes.now }
    ensures stays { (q : List Datum)
        → has_row counts.new.entries q ≡ true → has_row counts.old.entries q ≡ true }
    ensures gone { IsUsed counts.new.entries changes.now row.now }
{
    if count_of(counts, row) == 0 && changes.get(row) == 0 {
        counts.swap_remove(row);
    }
}

/// Takes out those of some rows whose count is 0 and which the changes don't count. Takes no memory. O(m) expected, where
/// there are m rows.
pub fn sweep(counts: &mut IndexMap<Row, i128>, rows: &IndexMap<Row, i128>, changes: &Bag)
    requires { Covers counts.old.entries changes.now }
    ensures counts { (q : List Datum)
        → count_at counts.new.entries q ≡ count_at counts.old.entries q }
    ensures covers { Covers counts.new.entries changes.now }
    ensures stays { (q : List Datum)
        → has_row counts.new.entries q ≡ true → has_row counts.old.entries q ≡ true }
    ensures gone { (q : List Datum)
        → has_row rows.now.entries q ≡ true → IsUsed counts.new.entries changes.now q }
{
    'rows: for (row, _count) in rows.iter() {
        let_go(counts, row, changes);
    }
}

// Adds a change to the counts and to the changes so far, or makes places for its rows alone.
fn put_all(
    counts: &mut IndexMap<Row, i128>,
    changes: &mut Bag,
    change: &Bag,
) -> Result<(), AllocError>
    requires fits { (q : List Datum)
        → Fits (count_at counts.old.entries q +ℤ count_in change.now q) }
    requires sums { (q : List Datum) → Fits (count_in changes.old q +ℤ count_in change.now q) }
    requires covers { Covers counts.old.entries changes.old }
    ensures counts { OnOk result ((q : List Datum) → count_at counts.new.entries q
        ≡ count_at counts.old.entries q +ℤ count_in change.now q) }
    ensures changes { OnOk result (changes.new ≡ sum_of changes.old change.now) }
    ensures same { OnErr result ((q : List Datum)
        → count_at counts.new.entries q ≡ count_at counts.old.entries q) }
    ensures same_changes { OnErr result (changes.new ≡ changes.old) }
    ensures covers { Covers counts.new.entries changes.new }
    ensures only { (q : List Datum) → is_some (get change.now q) ≡ false
        → has_row counts.new.entries q ≡ true → has_row counts.old.entries q ≡ true }
{
    make_places(counts, change.counts())?;
    changes.merge(change)?;
    add_each(counts, change.counts());
    Ok(())
}

/// Adds a change to the counts and to the changes so far, all of it or nothing. No place is left that isn't used. O(m)
/// expected, where the change has m rows.
pub fn put(
    counts: &mut IndexMap<Row, i128>,
    changes: &mut Bag,
    change: &Bag,
) -> Result<(), AllocError>
    requires fits { (q : List Datum)
        → Fits (count_at counts.old.entries q +ℤ count_in change.now q) }
    requires sums { (q : List Datum) → Fits (count_in changes.old q +ℤ count_in change.now q) }
    requires covers { Covers counts.old.entries changes.old }
    ensures counts { OnOk result ((q : List Datum) → count_at counts.new.entries q
        ≡ count_at counts.old.entries q +ℤ count_in change.now q) }
    ensures changes { OnOk result (changes.new ≡ sum_of changes.old change.now) }
    ensures same { OnErr result ((q : List Datum)
        → count_at counts.new.entries q ≡ count_at counts.old.entries q) }
    ensures same_changes { OnErr result (changes.new ≡ changes.old) }
    ensures covers { Covers counts.new.entries changes.new }
    ensures used { AreUsed counts.old.entries changes.old
        → AreUsed counts.new.entries changes.new }
{
    let result = put_all(counts, changes, change);
    sweep(counts, change.counts(), changes);
    result
}

/// A copy of the rows that are there. O(n) expected, where n rows are stored.
pub fn copied_rows(counts: &IndexMap<Row, i128>) -> Result<Bag, AllocError>
    requires { rows_in (rows_now counts.now.entries) ≤ most_rows }
    ensures { IfOk result (λ bag. bag ≡ rows_now counts.now.entries) }
{
    let alloc = *counts.allocator();
    let _rows = counts.len();
    let mut bag = Bag::empty(alloc);
    'rows: for (row, count) in counts.iter() {
        bag.add(row.try_copy(alloc)?, *count)?;
    }
    Ok(bag)
}
