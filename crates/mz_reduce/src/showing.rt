//! The rows of groups, as they are shown.
ghost use Rattle.std.specs.Prelude.{◌≡◌, ◌++◌, pos, List, IfOk, OnOk};
ghost use Rattle.std.specs.FinMap.{entries};
ghost use Rattle.std.specs.List.{AllByRecursion as Each, IsDistinct};
ghost use Rattle.mz_value.specs.Row.{row_eq};
ghost use Rattle.mz_value.specs.declared.datum.Datum.{Datum};
ghost use Rattle.mz_bag.specs.Bag.{IsBag};
ghost use Rattle.mz_keyed.specs.Keyed.{rows_of};
ghost use Rattle.mz_reduce.specs.Grouping.{is_taken, sums_int, sums_ints, taken};
ghost use Rattle.mz_reduce.specs.Grouping.{all_shown, shown, AreBounded};
ghost use Rattle.mz_reduce.specs.Orders.{AreOrders};
ghost use Rattle.mz_reduce.specs.Totals.{told, totals_of, AreTotals, AreTotalsOf, Tells, TellsAll};

use crate::orders::{Orders, greatest, least};
use crate::totals::{Totals, zeros};
use indexmap::{IndexMap, IndexSet};
use mz_bag::Bag;
use mz_keyed::KeyedRows;
use mz_plan::{Aggregate, number_at};
use mz_value::{Datum, Row, TryCopy};
use std::alloc::{AllocError, Global};

// The greatest size of an INT.
const LARGEST: u128 = 1 << 31;

// Whether an aggregate takes no number of a row that is larger than an INT.
fn sums_int(row: &Row, aggregate: &Aggregate) -> bool
    ensures { result ≡ sums_int row.now aggregate.now }
{
    match *aggregate {
        Aggregate::Count => true,
        Aggregate::Sum(place) => number_at(row, Some(place)).unsigned_abs() <= LARGEST,
        Aggregate::Min(_) => true,
        Aggregate::Max(_) => true,
    }
}

// Whether no aggregate takes a number of a row that is larger than an INT.
fn sums_ints(row: &Row, aggregates: &[Aggregate]) -> bool
    ensures { result ≡ sums_ints aggregates.now row.now }
{
    aggregates.iter().all(|aggregate| sums_int(row, aggregate))
}

// Whether a row has come or gone, and is one that is taken.
fn is_taken(entry: &(Row, i128), aggregates: &[Aggregate]) -> bool
    ensures { result ≡ is_taken aggregates.now entry.now }
{
    entry.1 != 0 && sums_ints(&entry.0, aggregates)
}

/// Keeps the rows that are taken. Takes no memory.
pub fn keep_taken(rows: &mut Vec<(Row, i128)>, aggregates: &[Aggregate])
    ensures { rows.new.items ≡ taken aggregates.now rows.old.items }
{
    rows.retain(|entry| is_taken(entry, aggregates));
}

// What an aggregate tells of the group of a key, by its total and the orders of the key.
fn value_of(
    alloc: Global,
    key: &Row,
    total: &(Aggregate, i128),
    orders: &Orders,
) -> Result<Datum, AllocError>
    ensures { IfOk result (Tells orders.now.entries key.now total.now) }
{
    match total.0 {
        Aggregate::Count => Ok(Datum::Wide(total.1)),
        Aggregate::Sum(_) => Ok(Datum::Wide(total.1)),
        Aggregate::Min(place) => Ok(least(alloc, orders, key, place)?),
        Aggregate::Max(place) => Ok(greatest(alloc, orders, key, place)?),
    }
}

// The row of a group, of which the totals are given: its key, and behind it the aggregates.
fn row_of_totals(
    alloc: Global,
    key: &Row,
    totals: &[(Aggregate, i128)],
    orders: &Orders,
) -> Result<Row, AllocError>
    ensures { IfOk result (TellsAll orders.now.entries key.now totals.now) }
{
    let mut values = key.try_copy(alloc)?.into_vec();
    'totals: for total in totals {
        values.push(value_of(alloc, key, total, orders)?)?;
    }
    Ok(Row::from_vec(values))
}

// Puts the row of a bag's group behind others, where it has rows.
fn push_group(
    alloc: Global,
    out: &mut Vec<(Row, i128)>,
    key: &Row,
    weight: i128,
    totals: &[(Aggregate, i128)],
    orders: &Orders,
    bag: &Bag,
) -> Result<(), AllocError>
    requires { AreTotalsOf bag.now orders.now.entries key.now totals.now }
    ensures shown { OnOk result (out.new.items
        ≡ out.old.items ++ shown (told totals.now) key.now weight (entries bag.now)) }
    ensures bag { IsBag bag.now }
{
    let count = bag.len();
    let there = count > 0;
    if there {
        let row = row_of_totals(alloc, key, totals, orders)?;
        out.push((row, weight))?;
    }
    Ok(())
}

// Puts the row of a key's group behind others, where it has rows, by the totals that the key has.
fn push_by_totals(
    alloc: Global,
    out: &mut Vec<(Row, i128)>,
    key: &Row,
    weight: i128,
    aggregates: &[Aggregate],
    totals: &IndexMap<Row, Totals>,
    orders: &Orders,
    bag: &Bag,
) -> Result<(), AllocError>
    requires { AreTotalsOf bag.now orders.now.entries key.now
        (totals_of aggregates.now totals.now.entries key.now) }
    ensures shown { OnOk result (out.new.items ≡ out.old.items
        ++ shown (told (totals_of aggregates.now totals.now.entries key.now)) key.now weight
        (entries bag.now)) }
    ensures bag { OnOk result (IsBag bag.now) }
{
    match totals.get(key) {
        Some(numbers) => push_group(alloc, out, key, weight, numbers.as_slice(), orders, bag),
        None => {
            let numbers = zeros(alloc, aggregates)?;
            push_group(alloc, out, key, weight, numbers.as_slice(), orders, bag)
        }
    }
}

/// Puts the row of a key's group behind others, where it has rows. O(1) expected, and O(log n) for
/// each MIN and MAX, where the group has n rows.
pub fn push_shown(
    alloc: Global,
    out: &mut Vec<(Row, i128)>,
    key: &Row,
    weight: i128,
    aggregates: &[Aggregate],
    groups: &KeyedRows,
    totals: &IndexMap<Row, Totals>,
    orders: &Orders,
) -> Result<(), AllocError>
    requires bounded { AreBounded aggregates.now (entries (rows_of groups.now key.now)) }
    requires totals { AreTotals aggregates.now groups.now totals.now.entries }
    requires orders { AreOrders aggregates.now groups.now orders.now.entries }
    ensures shown { OnOk result (out.new.items ≡ out.old.items
        ++ shown aggregates.now key.now weight (entries (rows_of groups.now key.now))) }
    ensures bag { OnOk result (IsBag (rows_of groups.now key.now)) }
{
    match groups.get(key) {
        Some(bag) => {
            push_by_totals(alloc, out, key, weight, aggregates, totals, orders, bag)?;
            Ok(())
        }
        None => Ok(()),
    }
}

/// Puts the rows of the groups of some keys behind others.
pub fn push_all(
    alloc: Global,
    out: &mut Vec<(Row, i128)>,
    keys: &IndexSet<Row>,
    aggregates: &[Aggregate],
    groups: &KeyedRows,
    totals: &IndexMap<Row, Totals>,
    orders: &Orders,
) -> Result<(), AllocError>
    requires totals { AreTotals aggregates.now groups.now totals.now.entries }
    requires orders { AreOrders aggregates.now groups.now orders.now.entries }
    requires bounded { (key : List Datum)
        → AreBounded aggregates.now (entries (rows_of groups.now key)) }
    ensures shown { OnOk result (out.new.items
        ≡ out.old.items ++ all_shown aggregates.now groups.now (pos 1) keys.now.keys) }
    ensures bags { OnOk result (Each (λ key. IsBag (rows_of groups.now key)) keys.now.keys) }
    ensures once { IsDistinct row_eq keys.now.keys }
{
    'keys: for key in keys.iter() {
        push_shown(alloc, out, key, 1, aggregates, groups, totals, orders)?;
    }
    Ok(())
}
