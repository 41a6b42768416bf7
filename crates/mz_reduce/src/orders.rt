//! Rows in order: what MIN and MAX tell of groups, without going through them.
ghost use Rattle.std.specs.Prelude.{◌≡◌, ◌+ℤ◌, [], nat_eq, ℕ, List, IfOk, OnOk, if◌then◌else◌};
ghost use Rattle.mz_value.specs.Row.{row_eq};
ghost use Rattle.mz_value.specs.declared.datum.Datum.{Datum};
ghost use Rattle.mz_bag.specs.Bag.{count_in, Fits};
ghost use Rattle.mz_keyed.specs.Keyed.{rows_of};
ghost use Rattle.mz_reduce.specs.Counting.{is_there};
ghost use Rattle.mz_reduce.specs.Orders.{are_ranked, fronted, is_among, order_of, ranks, same_spot};
ghost use Rattle.mz_reduce.specs.Orders.{IsTurned, TellsGreatest, TellsLeast};

use crate::distinct::is_there;
use indexmap::IndexMap;
use mz_keyed::KeyedRows;
use mz_plan::{Aggregate, appended, value_at};
use mz_value::{Datum, Row, TryCopy};
use std::alloc::{AllocError, Global};
use std::collections::BTreeSet;

/// Of a place and a key the rows of the key's group, each behind its value at the place.
pub type Orders = IndexMap<(u64, Row), BTreeSet<Row>>;

// The count of a row of a key.
fn count_at(groups: &KeyedRows, key: &Row, row: &Row) -> i128
    ensures { result ≡ count_in (rows_of groups.now key.now) row.now }
{
    match groups.get(key) {
        Some(bag) => bag.get(row),
        None => 0,
    }
}

// The sum of a count and a diff.
fn sum(count: i128, diff: i128) -> i128
    requires { Fits (count +ℤ diff) }
    ensures { result ≡ count +ℤ diff }
{
    count + diff
}

// Whether a row of a key is there, once its count has moved by a diff.
fn stays(groups: &KeyedRows, key: &Row, row: &Row, diff: i128) -> bool
    requires { Fits (count_in (rows_of groups.now key.now) row.now +ℤ diff) }
    ensures { result ≡ is_there (count_in (rows_of groups.now key.now) row.now +ℤ diff) }
{
    is_there(sum(count_at(groups, key, row), diff))
}

// A row behind its value at a place.
fn fronted(alloc: Global, row: &Row, place: u64) -> Result<Row, AllocError>
    ensures { IfOk result (λ front. front ≡ fronted place row.now) }
{
    let mut value = Vec::with_capacity(alloc, 1)?;
    value.push(value_at(alloc, row, place)?)?;
    appended(alloc, &Row::from_vec(value), row)
}

// Takes the rows of a place and a key out.
fn taken(alloc: Global, orders: &mut Orders, spot: &(u64, Row)) -> BTreeSet<Row>
    ensures order { result.keys ≡ order_of orders.old.entries spot.now }
    ensures rest { (other : ℕ × List Datum) → order_of orders.new.entries other
        ≡ (if same_spot spot.now other then [] else order_of orders.old.entries other) }
{
    match orders.swap_remove(spot) {
        Some(order) => order,
        None => BTreeSet::new(alloc),
    }
}

// A row stands among others from now on, or doesn't.
fn set(order: &mut BTreeSet<Row>, front: Row, stands: bool) -> Result<(), AllocError>
    ensures { OnOk result ((q : List Datum) → is_among q order.new.keys
        ≡ (if row_eq front q then stands else is_among q order.old.keys)) }
{
    if stands {
        order.insert(front)?;
    } else {
        order.remove(&front);
    }
    Ok(())
}

// Puts rows for a place and a key that has none.
fn put(orders: &mut Orders, spot: (u64, Row), order: BTreeSet<Row>) -> Result<(), AllocError>
    requires { order_of orders.old.entries spot ≡ [] }
    ensures { OnOk result ((other : ℕ × List Datum) → order_of orders.new.entries other
        ≡ (if same_spot spot other then order.keys else order_of orders.old.entries other)) }
{
    if !order.is_empty() {
        orders.insert(spot, order)?;
    }
    Ok(())
}

// The count of a row of a key moves by a diff: the row stands now in the order of a place, or
// doesn't.
fn turn_at(
    alloc: Global,
    orders: &mut Orders,
    groups: &KeyedRows,
    key: &Row,
    place: u64,
    row: &Row,
    diff: i128,
) -> Result<(), AllocError>
    requires { Fits (count_in (rows_of groups.now key.now) row.now +ℤ diff) }
    ensures { OnOk result (IsTurned (nat_eq place) key.now row.now
        (is_there (count_in (rows_of groups.now key.now) row.now +ℤ diff))
        orders.old.entries orders.new.entries) }
{
    let stands = stays(groups, key, row, diff);
    let front = fronted(alloc, row, place)?;
    let spot = (place, key.try_copy(alloc)?);
    let mut order = taken(alloc, orders, &spot);
    set(&mut order, front, stands)?;
    put(orders, spot, order)?;
    Ok(())
}

// So it is for an aggregate, where it ranks a place.
fn turn_for(
    alloc: Global,
    orders: &mut Orders,
    groups: &KeyedRows,
    key: &Row,
    aggregate: Aggregate,
    row: &Row,
    diff: i128,
) -> Result<(), AllocError>
    requires { Fits (count_in (rows_of groups.now key.now) row.now +ℤ diff) }
    ensures { OnOk result (IsTurned (λ place. ranks place aggregate) key.now row.now
        (is_there (count_in (rows_of groups.now key.now) row.now +ℤ diff))
        orders.old.entries orders.new.entries) }
{
    match aggregate {
        Aggregate::Count => Ok(()),
        Aggregate::Sum(_) => Ok(()),
        Aggregate::Min(place) => Ok(turn_at(alloc, orders, groups, key, place, row, diff)?),
        Aggregate::Max(place) => Ok(turn_at(alloc, orders, groups, key, place, row, diff)?),
    }
}

/// The count of a row of a key is to move by a diff: the row stands now in each order of the key, or
/// in none. O(log n) for each MIN and MAX, where the group has n rows.
pub fn turn(
    alloc: Global,
    orders: &mut Orders,
    groups: &KeyedRows,
    key: &Row,
    aggregates: &[Aggregate],
    row: &Row,
    diff: i128,
) -> Result<(), AllocError>
    requires { Fits (count_in (rows_of groups.now key.now) row.now +ℤ diff) }
    ensures { OnOk result (IsTurned (λ place. are_ranked place aggregates.now) key.now row.now
        (is_there (count_in (rows_of groups.now key.now) row.now +ℤ diff))
        orders.old.entries orders.new.entries) }
{
    'aggregates: for aggregate in aggregates {
        turn_for(alloc, orders, groups, key, *aggregate, row, diff)?;
    }
    Ok(())
}

// The value that the first of the rows begins with, FALSE where there is none.
fn first_value(alloc: Global, order: &BTreeSet<Row>) -> Result<Datum, AllocError>
    ensures { IfOk result (λ value. (place : ℕ) → TellsLeast place order.now.keys value) }
{
    match order.first() {
        Some(front) => Ok(value_at(alloc, front, 0)?),
        None => Ok(Datum::Bool(false)),
    }
}

// The value that the last of the rows begins with, FALSE where there is none.
fn last_value(alloc: Global, order: &BTreeSet<Row>) -> Result<Datum, AllocError>
    ensures { IfOk result (λ value. (place : ℕ) → TellsGreatest place order.now.keys value) }
{
    match order.last() {
        Some(front) => Ok(value_at(alloc, front, 0)?),
        None => Ok(Datum::Bool(false)),
    }
}

/// What MIN tells of the group of a key. O(log n), where it has n rows.
pub fn least(alloc: Global, orders: &Orders, key: &Row, place: u64) -> Result<Datum, AllocError>
    ensures { IfOk result (λ value.
        TellsLeast place (order_of orders.now.entries (place, key.now)) value) }
{
    let spot = (place, key.try_copy(alloc)?);
    match orders.get(&spot) {
        Some(order) => Ok(first_value(alloc, order)?),
        None => Ok(Datum::Bool(false)),
    }
}

/// What MAX tells of the group of a key. O(log n), where it has n rows.
pub fn greatest(alloc: Global, orders: &Orders, key: &Row, place: u64) -> Result<Datum, AllocError>
    ensures { IfOk result (λ value.
        TellsGreatest place (order_of orders.now.entries (place, key.now)) value) }
{
    let spot = (place, key.try_copy(alloc)?);
    match orders.get(&spot) {
        Some(order) => Ok(last_value(alloc, order)?),
        None => Ok(Datum::Bool(false)),
    }
}
