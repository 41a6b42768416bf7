//! Plans that are tried.

use mz_plan::{Aggregate, Aggregates, Cond, Operand, Pairs, Places, Plan};
use mz_statement::Op;
use mz_value::Datum;
use sqlite_items::{Boxed, Items};
use std::alloc::{AllocError, Global};

// The condition that the value at a place isn't some INT.
fn differs(place: u64, number: i32) -> Cond {
    Cond::Compare(place, Op::Ne, Operand::Literal(Datum::Int(number)))
}

/// The rows of a plan whose value at a place isn't some INT.
pub fn filter(alloc: Global, below: Plan, place: u64, number: i32) -> Result<Plan, AllocError> {
    let below = Boxed::new(alloc, below)?;
    Ok(Plan::Filter(below, differs(place, number)))
}

/// The condition that the first value is none of many INTs, from 10 on.
pub fn differs_from_many(alloc: Global, many: i32) -> Result<Cond, AllocError> {
    let mut conds = Vec::new(alloc);
    for number in 10..many {
        conds.push(differs(0, number))?;
    }
    Ok(Cond::All(Items::from_vec(conds)))
}

/// Of each row of a plan the values at some places.
pub fn project(alloc: Global, below: Plan, places: &[u64]) -> Result<Plan, AllocError> {
    let places = Places::from_vec(places.to_vec(alloc)?);
    let below = Boxed::new(alloc, below)?;
    Ok(Plan::Project(below, places))
}

// The pair of the first values.
fn first_pair(alloc: Global) -> Result<Pairs, AllocError> {
    Ok(Pairs::from_vec(vec![in alloc; (0, 0)]?))
}

/// The rows of a plan with those of a table that have the same first value.
pub fn join(alloc: Global, left: Plan, table: u64) -> Result<Plan, AllocError> {
    let pairs = first_pair(alloc)?;
    let right = Boxed::new(alloc, Plan::Table(table))?;
    let left = Boxed::new(alloc, left)?;
    Ok(Plan::Join(left, right, pairs))
}

/// The rows of a plan and those of a table.
pub fn union(alloc: Global, left: Plan, table: u64) -> Result<Plan, AllocError> {
    let right = Boxed::new(alloc, Plan::Table(table))?;
    let left = Boxed::new(alloc, left)?;
    Ok(Plan::Union(left, right))
}

/// For each of some values of a plan the number of its rows, and an aggregate.
pub fn group(
    alloc: Global,
    below: Plan,
    keys: &[u64],
    aggregate: Aggregate,
) -> Result<Plan, AllocError> {
    let keys = Places::from_vec(keys.to_vec(alloc)?);
    let aggregates = Aggregates::from_vec(vec![in alloc; Aggregate::Count, aggregate]?);
    let below = Boxed::new(alloc, below)?;
    Ok(Plan::Group(below, keys, aggregates))
}

/// Each row of a plan once.
pub fn distinct(alloc: Global, below: Plan) -> Result<Plan, AllocError> {
    let below = Boxed::new(alloc, below)?;
    Ok(Plan::Distinct(below))
}

/// A plan of some form over the tables 1 and 2, whose rows have two values, over such a plan.
pub fn stacked(alloc: Global, below: Plan, form: u64) -> Result<Plan, AllocError> {
    match form {
        0 => filter(alloc, below, 1, 2),
        1 => project(alloc, below, &[1, 0]),
        2 => distinct(alloc, below),
        3 => project(alloc, join(alloc, below, 2)?, &[0, 3]),
        4 => union(alloc, below, 1),
        5 => project(
            alloc,
            group(alloc, below, &[0], Aggregate::Max(1))?,
            &[0, 2],
        ),
        _ => project(
            alloc,
            group(alloc, below, &[0], Aggregate::Min(1))?,
            &[2, 0],
        ),
    }
}
