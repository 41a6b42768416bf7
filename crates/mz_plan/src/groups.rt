//! What is told of the rows of a group, and the row that it makes.
ghost use Rattle.std.specs.Prelude.{◌≡◌, ◌++◌, ◌+ℤ◌, map, IfOk};
ghost use Rattle.std.specs.List.{AllByRecursion as Each};
ghost use Rattle.mz_bag.specs.Bag.{Fits};
ghost use Rattle.mz_bag.specs.Mass.{IsLight};
ghost use Rattle.mz_plan.specs.Aggregate.{number_at, aggregate_of, greater, greatest, column, least, lesser, weigh};
ghost use Rattle.mz_plan.specs.Bound.{IsSummable, weighed};
ghost use Rattle.mz_plan.specs.Value.{number_of};

use crate::Aggregate;
use crate::pairs::product;
use crate::value::{value_at, value_or};
use mz_value::{Datum, Row, TryCopy};
use std::alloc::{AllocError, Global};

// The number of an INT or a WIDE, 0 for another value.
fn number_of(value: &Datum) -> i128
    ensures { result ≡ number_of value.now }
{
    match value {
        Datum::Int(number) => i128::from(*number),
        Datum::Text(_) => 0,
        Datum::Bool(_) => 0,
        Datum::Wide(number) => *number,
    }
}

/// What a row adds to a count, or to the sum of a column. Takes no memory.
pub fn number_at(row: &Row, place: Option<u64>) -> i128
    ensures { result ≡ number_at place row.now }
{
    match place {
        None => 1,
        Some(place) => {
            let absent = Datum::Bool(false);
            number_of(value_or(row, place, &absent))
        }
    }
}

// The sum of two counts.
fn sum(first: i128, second: i128) -> i128
    requires { Fits (first +ℤ second) }
    ensures { result ≡ first +ℤ second }
{
    first + second
}

// How many rows there are, or the sum of a column, each row by its count.
fn weighed(rows: &[(Row, i128)], place: Option<u64>) -> i128
    requires { IsLight (weighed (number_at place) rows.now) }
    ensures { result ≡ weigh (number_at place) rows.now }
{
    let mut total = 0;
    'rows: for (row, count) in rows {
        let part = product(*count, number_at(row, place));
        total = sum(total, part);
    }
    total
}

// The lesser of two values.
#[tactic(auto, using(crate::proofs::ValueRules::cmp_rules))]
fn lesser(first: Datum, second: Datum) -> Datum
    ensures { result ≡ lesser first second }
{
    let is_first = first.cmp(&second).is_le();
    if is_first { first } else { second }
}

// The greater of two values.
#[tactic(auto, using(crate::proofs::ValueRules::cmp_rules))]
fn greater(first: Datum, second: Datum) -> Datum
    ensures { result ≡ greater first second }
{
    let is_first = first.cmp(&second).is_ge();
    if is_first { first } else { second }
}

// The least value of a column.
fn least(alloc: Global, rows: &[(Row, i128)], place: u64) -> Result<Datum, AllocError>
    ensures { IfOk result (λ value. value ≡ least (column place rows.now)) }
{
    match rows {
        [] => Ok(Datum::Bool(false)),
        [first, rest @ ..] => {
            let mut value = value_at(alloc, &first.0, place)?;
            'rest: for (row, _count) in rest {
                value = lesser(value, value_at(alloc, row, place)?);
            }
            Ok(value)
        }
    }
}

// The greatest value of a column.
fn greatest(alloc: Global, rows: &[(Row, i128)], place: u64) -> Result<Datum, AllocError>
    ensures { IfOk result (λ value. value ≡ greatest (column place rows.now)) }
{
    match rows {
        [] => Ok(Datum::Bool(false)),
        [first, rest @ ..] => {
            let mut value = value_at(alloc, &first.0, place)?;
            'rest: for (row, _count) in rest {
                value = greater(value, value_at(alloc, row, place)?);
            }
            Ok(value)
        }
    }
}

/// What an aggregate tells of a group. It goes through the rows once, and copies the value that it answers.
#[tactic(auto, using(crate::proofs::SumRules::weighed_once))]
pub fn aggregate_of(
    alloc: Global,
    group: &[(Row, i128)],
    aggregate: Aggregate,
) -> Result<Datum, AllocError>
    requires light { IsLight group.now }
    requires summable { IsSummable group.now aggregate }
    ensures { IfOk result (λ value. value ≡ aggregate_of group.now aggregate) }
{
    match aggregate {
        Aggregate::Count => Ok(Datum::Wide(weighed(group, None))),
        Aggregate::Sum(place) => Ok(Datum::Wide(weighed(group, Some(place)))),
        Aggregate::Min(place) => least(alloc, group, place),
        Aggregate::Max(place) => greatest(alloc, group, place),
    }
}

/// The row of a group, of which the rows are given with their counts: its key, and behind it the aggregates. It goes
/// through the rows once for each aggregate, and takes the memory of the row.
pub fn row_of_group(
    alloc: Global,
    group: &[(Row, i128)],
    key: &Row,
    aggregates: &[Aggregate],
) -> Result<Row, AllocError>
    requires light { IsLight group.now }
    requires summable { Each (IsSummable group.now) aggregates.now }
    ensures { IfOk result (λ row. row ≡ key.now ++ map (aggregate_of group.now) aggregates.now) }
{
    let mut values = key.try_copy(alloc)?.into_vec();
    'aggregates: for aggregate in aggregates {
        values.push(aggregate_of(alloc, group, *aggregate)?)?;
    }
    Ok(Row::from_vec(values))
}
