//! The totals of groups: what COUNT and SUM tell of them, without their rows.
ghost use Rattle.std.specs.Prelude.{◌≡◌, ◌+ℤ◌, ◌*ℤ◌, [], map, if◌then◌else◌, List, IfOk, OnOk};
ghost use Rattle.std.specs.Int.{w128, int_wrap};
ghost use Rattle.mz_value.specs.Row.{row_eq};
ghost use Rattle.mz_value.specs.declared.datum.Datum.{Datum};
ghost use Rattle.mz_plan.specs.declared.aggregate.Aggregate.{Aggregate};
ghost use Rattle.mz_reduce.specs.Totals.{adds, total_over, totals_of, totals_over, with_row, ArePut};

use indexmap::IndexMap;
use mz_keyed::KeyedRows;
use mz_plan::{Aggregate, number_at};
use mz_value::{Listed, Row};
use std::alloc::{AllocError, Global};

/// Aggregates, each with its total.
pub type Totals = Listed<(Aggregate, i128)>;

// What a row adds to the total of an aggregate.
fn adds(row: &Row, aggregate: Aggregate) -> i128
    ensures { result ≡ adds aggregate row.now }
{
    match aggregate {
        Aggregate::Count => 1,
        Aggregate::Sum(place) => number_at(row, Some(place)),
        Aggregate::Min(_) => 0,
        Aggregate::Max(_) => 0,
    }
}

// The product of a diff and a number, as 128 bits have it.
fn product(diff: i128, number: i128) -> i128
    ensures { result ≡ int_wrap w128 (diff *ℤ number) }
{
    diff.wrapping_mul(number)
}

// The sum of a total and a number, as 128 bits have it.
fn sum(total: i128, number: i128) -> i128
    ensures { result ≡ int_wrap w128 (total +ℤ number) }
{
    total.wrapping_add(number)
}

// A total with one row more.
fn with_row(total: &(Aggregate, i128), row: &Row, diff: i128) -> (Aggregate, i128)
    ensures { result ≡ with_row row.now diff total.now }
{
    let number = product(diff, adds(row, total.0));
    (total.0, sum(total.1, number))
}

// Adds a row to each total.
fn add_to_all(
    alloc: Global,
    totals: &[(Aggregate, i128)],
    row: &Row,
    diff: i128,
) -> Result<Vec<(Aggregate, i128)>, AllocError>
    ensures { IfOk result (λ next. next.items ≡ map (with_row row.now diff) totals.now) }
{
    let mut next = Vec::with_capacity(alloc, totals.len())?;
    'totals: for total in totals {
        next.push(with_row(total, row, diff))?;
    }
    Ok(next)
}

// The total over no row.
fn zero(aggregate: &Aggregate) -> (Aggregate, i128)
    ensures { result ≡ total_over [] aggregate.now }
{
    (*aggregate, 0)
}

/// The totals over no row.
pub fn zeros(alloc: Global, aggregates: &[Aggregate]) -> Result<Vec<(Aggregate, i128)>, AllocError>
    ensures { IfOk result (λ totals. totals.items ≡ totals_over aggregates.now []) }
{
    let mut totals = Vec::with_capacity(alloc, aggregates.len())?;
    'aggregates: for aggregate in aggregates {
        totals.push(zero(aggregate))?;
    }
    Ok(totals)
}

// Takes a key's totals out.
fn taken(
    alloc: Global,
    totals: &mut IndexMap<Row, Totals>,
    key: &Row,
    aggregates: &[Aggregate],
) -> Result<Vec<(Aggregate, i128)>, AllocError>
    ensures numbers { IfOk result (λ numbers. numbers.items
        ≡ totals_of aggregates.now totals.old.entries key.now) }
    ensures rest { (other : List Datum) → totals_of aggregates.now totals.new.entries other
        ≡ (if row_eq key.now other then totals_over aggregates.now []
        else totals_of aggregates.now totals.old.entries other) }
{
    match totals.swap_remove(key) {
        Some(numbers) => Ok(numbers.into_vec()),
        None => zeros(alloc, aggregates),
    }
}

/// Takes a key's totals out, and gives them with one row more.
pub fn next_totals(
    alloc: Global,
    totals: &mut IndexMap<Row, Totals>,
    key: &Row,
    aggregates: &[Aggregate],
    row: &Row,
    diff: i128,
) -> Result<Vec<(Aggregate, i128)>, AllocError>
    ensures numbers { IfOk result (λ numbers. numbers.items
        ≡ map (with_row row.now diff) (totals_of aggregates.now totals.old.entries key.now)) }
    ensures rest { (other : List Datum) → totals_of aggregates.now totals.new.entries other
        ≡ (if row_eq key.now other then totals_over aggregates.now []
        else totals_of aggregates.now totals.old.entries other) }
{
    let numbers = taken(alloc, totals, key, aggregates)?;
    add_to_all(alloc, numbers.as_slice(), row, diff)
}

/// Puts a key's totals, where it has rows.
pub fn put_back(
    totals: &mut IndexMap<Row, Totals>,
    key: Row,
    numbers: Vec<(Aggregate, i128)>,
    groups: &KeyedRows,
) -> Result<(), AllocError>
    ensures { OnOk result
        (ArePut groups.now key numbers.items totals.old.entries totals.new.entries) }
{
    match groups.get(&key) {
        Some(_rows) => {
            totals.insert(key, Totals::from_vec(numbers))?;
        }
        None => {}
    }
    Ok(())
}
