//! A bag of rows: how often each row is there.
ghost use Rattle.std.specs.Prelude.{◌≡◌, ◌↔◌, ◌+ℤ◌, ◌≤◌, ◌+◌, ◌<◌, List, length, neg_ℤ, IfOk, IsTrue, IsOk, OnOk, OnErr};
ghost use Rattle.std.specs.List.{IsDistinct};
ghost use Rattle.std.specs.Map.{keys_of};
ghost use Rattle.std.specs.FinMap as map;
ghost use Rattle.indexmap.specs.IndexMap.{keys, spare, IsUnchanged};
ghost use Rattle.mz_value.specs.declared.datum.Datum.{Datum};
ghost use Rattle.mz_value.specs.Row.{row_eq};
ghost use Rattle.mz_bag.specs.Bag.{count_in, with_count, map_of, Fits, FitsWith, IsStored};
ghost use Rattle.mz_bag.specs.Weighted.{count, negated, sum_of, negation_of};

use indexmap::IndexMap;
use mz_value::{Listed, Row, Rows, TryCopy};
use std::alloc::{AllocError, Global};
use std::marker::Model;

/// The greatest count of a row. Each count is from its negative to it.
pub const MOST_COUNT: u128 = 1 << 100;

/// Rows with a count each, as a bag has them.
pub type CountedRows = Listed<(Row, i128)>;

/// How often each row is there, as a count that is never 0 and at most [`MOST_COUNT`] in size.
#[derive(Drop)]
pub struct Bag {
    // Each row that is there with its count, in no order that shows.
    counts: IndexMap<Row, i128>,
}

impl Model for Bag {
    ghost use Rattle.std.specs.Coded.{coded_list, coded_ℤ};
    ghost use Rattle.std.specs.FinMap as map;
    ghost use Rattle.mz_value.specs.contracts.datum.Datum as datum;
    ghost use Rattle.mz_bag.specs.Bag.{Counts, map_of, IsStored};

    ghost Value = { Counts };

    ghost coded = { map.code (coded_list datum.the_row.coded) coded_ℤ };

    ghost view = { λ b. map_of b.counts.entries };

    ghost invariant = { λ b. IsStored (map_of b.counts.entries) };
}

// The sum of two counts.
fn sum(count: i128, diff: i128) -> i128
    requires { Fits (count +ℤ diff) }
    ensures { result ≡ count +ℤ diff }
{
    count + diff
}

// The count of a row.
fn count_of(counts: &IndexMap<Row, i128>, row: &Row) -> i128
    ensures { result ≡ count_in (map_of counts.now.entries) row.now }
{
    counts.get(row).copied().unwrap_or(0)
}

// Gives a row its new count. The row goes where that is 0.
fn set_count(counts: &mut IndexMap<Row, i128>, row: Row, count: i128) -> Result<(), AllocError>
    ensures ok { OnOk result (map_of counts.new.entries
        ≡ with_count (map_of counts.old.entries) row count) }
    ensures err { OnErr result (IsUnchanged counts.old counts.new) }
    ensures succeeds { 0 < spare counts.old → IsOk result }
    ensures room { spare counts.old ≤ spare counts.new + 1 }
{
    let gone = count == 0;
    if gone {
        counts.swap_remove(&row);
    } else {
        counts.insert(row, count)?;
    }
    Ok(())
}

// Adds to the count of a row.
fn add_to(counts: &mut IndexMap<Row, i128>, row: Row, diff: i128) -> Result<(), AllocError>
    requires { Fits (count_in (map_of counts.old.entries) row +ℤ diff) }
    ensures ok { let before = map_of counts.old.entries in
        OnOk result
        (map_of counts.new.entries ≡ with_count before row (count_in before row +ℤ diff)) }
    ensures err { OnErr result (IsUnchanged counts.old counts.new) }
    ensures succeeds { 0 < spare counts.old → IsOk result }
    ensures room { spare counts.old ≤ spare counts.new + 1 }
{
    let count = sum(count_of(counts, &row), diff);
    set_count(counts, row, count)
}

// Adds the count of each row, where there is room for all of them.
fn add_all(counts: &mut IndexMap<Row, i128>, more: Vec<(Row, i128)>)
    requires room { length more.items ≤ spare counts.old }
    requires once { IsDistinct row_eq (keys_of more.items) }
    requires stored { IsStored (map_of counts.old.entries) }
    requires fits { (row : List Datum)
        → Fits (count_in (map_of counts.old.entries) row +ℤ count row more.items) }
    ensures counts { (row : List Datum) → count_in (map_of counts.new.entries) row
        ≡ count_in (map_of counts.old.entries) row +ℤ count row more.items }
    ensures stored { IsStored (map_of counts.new.entries) }
{
    'rows: for (row, diff) in more {
        add_to(counts, row, diff).unwrap();
    }
}

// The rows with their counts, in no certain order.
fn copied_counts(
    alloc: Global,
    counts: &IndexMap<Row, i128>,
) -> Result<Vec<(Row, i128)>, AllocError>
    ensures items { IfOk result (λ copy. copy.items ≡ counts.now.entries) }
    ensures once { IsDistinct row_eq (keys counts.now) }
{
    let mut copy = Vec::with_capacity(alloc, counts.len())?;
    for (row, count) in counts.iter() {
        copy.push((row.try_copy(alloc)?, *count))?;
    }
    Ok(copy)
}

// Adds the counts of another map, all of them or none.
fn merge_into(
    counts: &mut IndexMap<Row, i128>,
    other: &IndexMap<Row, i128>,
) -> Result<(), AllocError>
    requires stored { IsStored (map_of counts.old.entries) }
    requires fits { FitsWith (map_of counts.old.entries) (map_of other.now.entries) }
    ensures ok { OnOk result (map_of counts.new.entries
        ≡ sum_of (map_of counts.old.entries) (map_of other.now.entries)) }
    ensures err { OnErr result (IsUnchanged counts.old counts.new) }
    ensures stored { IsStored (map_of counts.new.entries) }
{
    let more = copied_counts(*counts.allocator(), other)?;
    counts.reserve(more.len())?;
    add_all(counts, more);
    Ok(())
}

// The rows with their counts, in no certain order. No row is copied.
fn moved_counts(counts: IndexMap<Row, i128>) -> Result<Vec<(Row, i128)>, AllocError>
    ensures items { IfOk result (λ moved. moved.items ≡ counts.entries) }
    ensures once { IsDistinct row_eq (keys counts) }
{
    let mut moved = Vec::with_capacity(*counts.allocator(), counts.len())?;
    for row in counts {
        moved.push(row)?;
    }
    Ok(moved)
}

// The rows with their counts, in the order of the rows.
fn sorted(mut rows: Vec<(Row, i128)>) -> Vec<(Row, i128)>
    requires { IsDistinct row_eq (keys_of rows.items) }
    ensures { result.items ≡ map.entries (map_of rows.items) }
{
    rows.sort_unstable();
    rows
}

// A copy of the rows with their counts, in the order of the rows.
fn sorted_counts(
    alloc: Global,
    counts: &IndexMap<Row, i128>,
) -> Result<Vec<(Row, i128)>, AllocError>
    ensures { IfOk result (λ rows. rows.items ≡ map.entries (map_of counts.now.entries)) }
{
    Ok(sorted(copied_counts(alloc, counts)?))
}

// The rows without their counts.
fn rows_of(alloc: Global, counted: Vec<(Row, i128)>) -> Result<Vec<Row>, AllocError>
    ensures { IfOk result (λ rows. rows.items ≡ keys_of counted.items) }
{
    let mut rows = Vec::with_capacity(alloc, counted.len())?;
    for (row, _count) in counted {
        rows.push(row)?;
    }
    Ok(rows)
}

// The negative of a count.
fn negative(count: i128) -> i128
    requires { Fits count }
    ensures { result ≡ neg_ℤ count }
{
    -count
}

// Turns each count to its negative.
fn negate_all(counts: &mut IndexMap<Row, i128>)
    requires { IsStored (map_of counts.old.entries) }
    ensures { counts.new.entries ≡ negated counts.old.entries }
{
    'places: for place in 0..counts.len() {
        counts[place] = negative(counts[place]);
    }
}

impl Bag {
    /// The bag without a row. Takes no memory until the first row is added.
    pub fn empty(alloc: Global) -> Bag
        ensures { result ≡ map.empty }
    {
        Bag {
            counts: IndexMap::new(alloc),
        }
    }

    /// Adds to the count of a row. After an `Err` the bag is as before. O(1) expected.
    pub fn add(&mut self, row: Row, diff: i128) -> Result<(), AllocError>
        requires { Fits (count_in self.old row +ℤ diff) }
        ensures ok { OnOk result
            (self.new ≡ with_count self.old row (count_in self.old row +ℤ diff)) }
        ensures err { OnErr result (self.new ≡ self.old) }
    {
        add_to(&mut self.counts, row, diff)
    }

    /// The count of a row, 0 where it is not there. Takes no memory. O(1) expected.
    pub fn get(&self, row: &Row) -> i128
        ensures count { result ≡ count_in self.now row.now }
        ensures fits { Fits (count_in self.now row.now) }
        ensures stored { IsStored self.now }
    {
        count_of(&self.counts, row)
    }

    /// Adds the counts of another bag. After an `Err` the bag is as before.
    /// O(m) expected, where the other bag has m rows.
    pub fn merge(&mut self, other: &Bag) -> Result<(), AllocError>
        requires { FitsWith self.old other.now }
        ensures ok { OnOk result (self.new ≡ sum_of self.old other.now) }
        ensures err { OnErr result (self.new ≡ self.old) }
    {
        merge_into(&mut self.counts, &other.counts)
    }

    /// Turns each count to its negative. Takes no memory. O(n), where the bag has n rows.
    pub fn negate(&mut self)
        ensures { self.new ≡ negation_of self.old }
    {
        negate_all(&mut self.counts);
    }

    /// The distinct rows, in order of values. O(n log n), where the bag has n rows.
    pub fn rows(&self) -> Result<Rows, AllocError>
        ensures rows { IfOk result (λ rows. rows ≡ map.keys self.now) }
        ensures stored { IsStored self.now }
    {
        let alloc = *self.counts.allocator();
        let counted = sorted_counts(alloc, &self.counts)?;
        Ok(Rows::from_vec(rows_of(alloc, counted)?))
    }

    /// The distinct rows with their counts, in order of values. O(n log n), as `rows`.
    pub fn counted(&self) -> Result<CountedRows, AllocError>
        ensures rows { IfOk result (λ rows. rows ≡ map.entries self.now) }
        ensures stored { IsStored self.now }
    {
        let rows = sorted_counts(*self.counts.allocator(), &self.counts)?;
        Ok(CountedRows::from_vec(rows))
    }

    /// The distinct rows with their counts, in order of values. No row is copied. O(n log n), where the bag has n rows.
    /// After an `Err` the bag is gone.
    pub fn into_counted(self) -> Result<CountedRows, AllocError>
        ensures rows { IfOk result (λ rows. rows ≡ map.entries self) }
        ensures stored { IsStored self }
    {
        Ok(CountedRows::from_vec(sorted(moved_counts(self.counts)?)))
    }

    /// The rows with their counts, in no certain order. Takes no memory. O(1).
    pub fn counts(&self) -> &IndexMap<Row, i128>
        ensures counts { map_of result.now.entries ≡ self.now }
        ensures stored { IsStored self.now }
    {
        &self.counts
    }

    /// How many distinct rows there are. Takes no memory. O(1).
    pub fn len(&self) -> usize
        ensures count { result ≡ map.len self.now }
        ensures stored { IsStored self.now }
    {
        self.counts.len()
    }

    /// Whether there is no row. Takes no memory. O(1).
    pub fn is_empty(&self) -> bool
        ensures { IsTrue result ↔ (self.now ≡ map.empty) }
    {
        self.len() == 0
    }
}
