//! What an INSERT and a DELETE change, as bags.
ghost use Rattle.std.specs.Prelude.{◌≡◌, ◌≤◌, length, nat_abs, neg_ℤ, IfOk};
ghost use Rattle.std.specs.List.{IsDistinct};
ghost use Rattle.indexmap.specs.IndexMap.{keys};
ghost use Rattle.mz_value.specs.Row.{row_eq};
ghost use Rattle.mz_bag.specs.Bag.{Fits};
ghost use Rattle.mz_bag.specs.Mass.{mass};
ghost use Rattle.mz_bag.specs.Weighted.{bag_of, each_once, negated};
ghost use Rattle.mz_plan.specs.Operators.{filtered};
ghost use Rattle.mz_plan.specs.Small.{most_rows};
ghost use Rattle.mz_log.specs.CarriedOut.{meets, rows_in};
ghost use Rattle.mz_seq.specs.Stored.{rows_now};

use indexmap::IndexMap;
use mz_bag::Bag;
use mz_plan::Cond;
use mz_value::{Row, TryCopy};
use std::alloc::{AllocError, Global};

/// The bag of some rows, one that is named twice counted twice. O(m) expected, where there are m rows.
pub fn bag_of_rows(alloc: Global, rows: &[Row]) -> Result<Bag, AllocError>
    requires { length rows.now ≤ most_rows }
    ensures { IfOk result (λ bag. bag ≡ bag_of (each_once rows.now)) }
{
    let mut bag = Bag::empty(alloc);
    'rows: for row in rows {
        bag.add(row.try_copy(alloc)?, 1)?;
    }
    Ok(bag)
}

// Whether a row meets the condition, where there is one.
fn meets(cond: &Option<Cond>, row: &Row) -> bool
    ensures { result ≡ meets cond.now row.now }
{
    match cond {
        Some(cond) => cond.holds(row),
        None => true,
    }
}

// The negative of a count.
fn negative(count: i128) -> i128
    requires { Fits count }
    ensures { result ≡ neg_ℤ count }
{
    -count
}

// A count that isn't negative.
fn size(count: i128) -> u64
    requires { nat_abs count ≤ most_rows }
    ensures { result ≡ nat_abs count }
{
    count.unsigned_abs() as u64
}

/// The rows that a DELETE takes.
#[derive(Drop)]
pub struct Met {
    /// The rows, each counted to the negative.
    pub gone: Bag,
    /// How many they are, each as often as it is there.
    pub number: u64,
}

/// The rows that meet the condition. O(n), where n rows are stored, and O(1) expected more for each that meets it.
pub fn rows_met(
    alloc: Global,
    counts: &IndexMap<Row, i128>,
    cond: &Option<Cond>,
) -> Result<Met, AllocError>
    requires { rows_in (rows_now counts.now.entries) ≤ most_rows }
    ensures gone { IfOk result
        (λ met. met.gone ≡ bag_of (negated (filtered (meets cond.now) counts.now.entries))) }
    ensures number { IfOk result
        (λ met. met.number ≡ mass (filtered (meets cond.now) counts.now.entries)) }
    ensures once { IsDistinct row_eq (keys counts.now) }
{
    let _rows = counts.len();
    let mut gone = Bag::empty(alloc);
    let mut number = 0;
    'rows: for (row, count) in counts.iter() {
        if meets(cond, row) {
            number = number + size(*count);
            gone.add(row.try_copy(alloc)?, negative(*count))?;
        }
    }
    Ok(Met { gone, number })
}
