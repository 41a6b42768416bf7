//! The values of a row by their places, and how two values compare.
ghost use Rattle.std.specs.Prelude.{◌≡◌, get_or, IfOk};
ghost use Rattle.mz_plan.specs.Value.{cells, value_at, value_cmp};

use mz_value::{Datum, Row, TryCopy};
use std::alloc::{AllocError, Global};
use std::cmp::Ordering;

/// The value of a row at a place, or another one where the row ends before it.
pub fn value_or<'a>(row: &'a Row, place: u64, absent: &'a Datum) -> &'a Datum
    ensures { result.now ≡ get_or row.now place absent.now }
{
    match row.as_slice().get(place as usize) {
        Some(value) => value,
        None => absent,
    }
}

/// A copy of the value of a row at a place. FALSE where the row ends before it.
pub fn value_at(alloc: Global, row: &Row, place: u64) -> Result<Datum, AllocError>
    ensures { IfOk result (λ value. value ≡ value_at row.now place) }
{
    let absent = Datum::Bool(false);
    value_or(row, place, &absent).try_copy(alloc)
}

/// A copy of the values of a row at these places.
pub fn cells(alloc: Global, row: &Row, places: &[u64]) -> Result<Row, AllocError>
    ensures { IfOk result (λ copy. copy ≡ cells places.now row.now) }
{
    let mut values = Vec::with_capacity(alloc, places.len())?;
    'places: for place in places {
        values.push(value_at(alloc, row, *place)?)?;
    }
    Ok(Row::from_vec(values))
}

/// How two values compare: an INT and a WIDE by number, all others by the order of values.
#[tactic(auto, using(crate::proofs::ValueRules::cmp_rules))]
pub fn compare(first: &Datum, second: &Datum) -> Ordering
    ensures { result ≡ value_cmp first.now second.now }
{
    match first {
        Datum::Int(x) => match second {
            Datum::Int(_) => first.cmp(second),
            Datum::Text(_) => first.cmp(second),
            Datum::Bool(_) => first.cmp(second),
            Datum::Wide(y) => i128::from(*x).cmp(y),
        },
        Datum::Wide(x) => match second {
            Datum::Int(y) => x.cmp(&i128::from(*y)),
            Datum::Text(_) => first.cmp(second),
            Datum::Bool(_) => first.cmp(second),
            Datum::Wide(_) => first.cmp(second),
        },
        Datum::Text(_) => first.cmp(second),
        Datum::Bool(_) => first.cmp(second),
    }
}
