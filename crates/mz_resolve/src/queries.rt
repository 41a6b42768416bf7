//! The relation of a query, once what its names stand for is known.
ghost use Rattle.mz_resolution.specs.Columns.{sight_of};
ghost use Rattle.mz_resolution.specs.Queries.{distinct_plan, filtered_plan, grouped_plan, joined_plan, small, narrow, place_meant, projected_plan, same_types, select_of, select_over, tables_of, united};
ghost use Rattle.mz_resolution.specs.Steps.{each};
ghost use Rattle.mz_select.specs.Gives.{Gives, Is};
ghost use Rattle.mz_resolve.specs.Parts.{joined_by_union, parts_in, parts_of, together, union_of};
ghost use Rattle.std.specs.Prelude.{◌≡◌, ◌+◌, ◌<◌, ◌∷◌, IfOk, Ok, length};

use crate::plans::{plan_of, rows_below, rows_listed, union};
use mz_plan::{Aggregates, Cond, MOST_TABLES, Pairs, Places, Plan};
use mz_refusal::{CallFault, Refusal};
use mz_resolution::{Listing, Referred, Relation};
use mz_select::{
    Sight, are_few, condition, equalities, keys_of, listing, same_type, too_many_columns,
    wrong_part,
};
use mz_statement::{Column, ColumnName, Select};
use std::alloc::{AllocError, Global};

// What is found of a select before its plan is made.
#[derive(Drop)]
struct SelectParts {
    // The pairs of places of each JOIN.
    pairs: Vec<Pairs>,
    // The condition behind WHERE.
    cond: Option<Cond>,
    // The keys of its grouping.
    keys: Option<Places>,
    // What its items give.
    found: Listing,
}

// A sum of counts of tables. A sum past the end of numbers, which no query reaches, is want of memory.
fn sum(one: u64, other: u64) -> Result<u64, CallFault>
    ensures { Is result (Ok (one + other)) }
{
    match one.checked_add(other) {
        Some(sum) => Ok(sum),
        None => Err(CallFault::Memory),
    }
}

// How many tables references name together.
fn tables_of(references: &[Referred]) -> Result<u64, CallFault>
    ensures { Is result (Ok (tables_of references.now)) }
{
    let mut tables = 0;
    'references: for reference in references {
        tables = sum(tables, reference.relation.tables)?;
    }
    Ok(tables)
}

// The place of the column that a name means.
fn place_meant<'a>(alloc: Global, sight: &Sight<'a>, column: &ColumnName) -> Result<u64, CallFault>
    ensures { Is result (place_meant sight.now column.now) }
{
    Ok(sight.meant(alloc, column)?.place())
}

// The places of the columns that names mean.
#[tactic(auto, using(mz_select::proofs::Fronts::fronts))]
fn places_meant<'a>(
    alloc: Global,
    sight: &Sight<'a>,
    columns: &[ColumnName],
) -> Result<Vec<u64>, CallFault>
    ensures { Gives (λ places. places.items) result (each (place_meant sight.now) columns.now) }
{
    let mut places = Vec::with_capacity(alloc, columns.len())?;
    'columns: for column in columns {
        let place = place_meant(alloc, sight, column)?;
        places.push(place)?;
    }
    Ok(places)
}

// The parts of a select in order.
fn parts_of<'a>(alloc: Global, sight: &Sight<'a>, select: &Select) -> Result<SelectParts, CallFault>
    ensures { Gives parts_in result (parts_of sight.now select.now) }
{
    let pairs = equalities(alloc, sight, select.joins.as_slice())?;
    let cond = condition(alloc, sight, &select.test)?;
    let places = places_meant(alloc, sight, select.group.as_slice())?;
    let keys = keys_of(select, places);
    let found = listing(alloc, sight, &keys, &select.items)?;
    Ok(SelectParts {
        pairs,
        cond,
        keys,
        found,
    })
}

// The parts of a select over these references.
fn parts_over(
    alloc: Global,
    references: &[Referred],
    select: &Select,
) -> Result<SelectParts, CallFault>
    ensures { Gives parts_in result (parts_of (sight_of references.now) select.now) }
{
    let sight = Sight::of_references(alloc, references)?;
    parts_of(alloc, &sight, select)
}

// A reference in front of others.
fn in_front(first: Referred, others: Vec<Referred>) -> Result<Vec<Referred>, AllocError>
    ensures { IfOk result (λ references. references.items ≡ first ∷ others.items) }
{
    let mut references = others;
    references.insert(0, first)?;
    Ok(references)
}

// The first reference, and the others.
fn first_apart(references: Vec<Referred>) -> (Referred, Vec<Referred>)
    requires { 0 < length references.items }
    ensures { references.items ≡ result.0 ∷ result.1.items }
{
    let mut others = references;
    let first = others.remove(0);
    (first, others)
}

// A result has no more columns than it may have.
fn narrow(relation: Relation) -> Result<Relation, CallFault>
    ensures { Is result (narrow relation) }
{
    if are_few(relation.columns.as_slice()) {
        return Ok(relation);
    }
    Err(CallFault::Refused(too_many_columns()))
}

// Whether two lists of columns have the same types.
fn same_types(ones: &[Column], others: &[Column]) -> bool
    ensures { result ≡ same_types ones.now others.now }
{
    match ones {
        [] => others.is_empty(),
        [one, ones @ ..] => match others {
            [] => false,
            [other, others @ ..] => same_type(one.kind, other.kind) && same_types(ones, others),
        },
    }
}

// A query names no more tables than it may.
fn small(relation: Relation) -> Result<Relation, CallFault>
    ensures { Is result (small relation) }
{
    if relation.tables <= MOST_TABLES {
        return Ok(relation);
    }
    Err(CallFault::Refused(Refusal::TooManyLeaves {
        has: relation.tables,
    }))
}

// What the items of a select give of the rows below, which name so many tables.
fn listed_over(
    alloc: Global,
    distinct: bool,
    keys: Option<Places>,
    found: Listing,
    below: Plan,
    tables: u64,
) -> Result<Relation, AllocError>
    ensures { IfOk result (λ relation. relation ≡ record {
      columns = found.columns;
      plan = distinct_plan distinct
          (projected_plan found.places (grouped_plan keys found.aggregates below));
      tables = tables;
    }) }
{
    let Listing {
        columns,
        places,
        aggregates,
    } = found;
    let plan = rows_listed(alloc, distinct, keys, aggregates, places, below)?;
    Ok(Relation {
        columns,
        plan,
        tables,
    })
}

// The relation of a select once each part is found.
fn select_of(
    alloc: Global,
    first: Referred,
    others: Vec<Referred>,
    select: &Select,
    parts: SelectParts,
) -> Result<Relation, CallFault>
    ensures { Is result (Ok (select_of first others.items select.now
        parts.pairs.items parts.cond parts.keys parts.found)) }
{
    let tables = sum(first.relation.tables, tables_of(&others)?)?;
    let SelectParts {
        pairs,
        cond,
        keys,
        found,
    } = parts;
    let below = rows_below(alloc, plan_of(first), others, pairs, cond)?;
    let distinct = select.distinct;
    Ok(listed_over(alloc, distinct, keys, found, below, tables)?)
}

/// The relation of a select over its references. A count of tables past the end of numbers, which no select
/// reaches, is want of memory. Time follows the names in the select, each with the columns that it sees.
pub fn select_over(
    alloc: Global,
    first: Referred,
    others: Vec<Referred>,
    select: &Select,
) -> Result<Relation, CallFault>
    ensures { Is result
        (select_over (sight_of (first ∷ others.items)) first others.items select.now) }
{
    let references = in_front(first, others)?;
    let parts = parts_over(alloc, &references, select)?;
    let (first, others) = first_apart(references);
    narrow(select_of(alloc, first, others, select, parts)?)
}

// The rows of two relations, of which the first gives the names of the columns.
fn together(alloc: Global, whole: Relation, next: Relation) -> Result<Relation, CallFault>
    ensures { Is result (Ok (together whole next)) }
{
    let tables = sum(whole.tables, next.tables)?;
    let Relation { columns, plan, .. } = whole;
    Ok(Relation {
        columns,
        plan: union(alloc, plan, next.plan)?,
        tables,
    })
}

// Two relations under one UNION ALL, where they have the same types.
fn joined_by_union(alloc: Global, whole: Relation, next: Relation) -> Result<Relation, CallFault>
    ensures { Is result (joined_by_union whole next) }
{
    if !same_types(whole.columns.as_slice(), next.columns.as_slice()) {
        return Err(CallFault::Refused(wrong_part(alloc, "union")?));
    }
    together(alloc, whole, next)
}

// UNION ALL of relations, nested from the left.
fn all_joined(alloc: Global, first: Relation, others: Vec<Relation>) -> Result<Relation, CallFault>
    ensures { Is result (united first others.items) }
{
    let mut whole = first;
    'others: for next in others {
        whole = joined_by_union(alloc, whole, next)?;
    }
    Ok(whole)
}

/// The relation of a query of these selects: UNION ALL of them, and at most four tables. A count of tables past
/// the end of numbers, which no query reaches, is want of memory. Time follows the columns of the selects.
pub fn united(alloc: Global, first: Relation, others: Vec<Relation>) -> Result<Relation, CallFault>
    ensures { Is result (union_of first others.items) }
{
    small(all_joined(alloc, first, others)?)
}
