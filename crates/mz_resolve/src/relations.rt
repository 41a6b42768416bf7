//! What items, references, selects and queries stand for, once all items that they name are known.
ghost use Rattle.std.specs.Prelude.{◌≡◌, None, IfOk, map};
ghost use Rattle.mz_resolution.specs.Columns.{name_or};
ghost use Rattle.mz_resolution.specs.Queries.{queried, referred, selected};
ghost use Rattle.mz_plan.specs.Items.{references};
ghost use Rattle.mz_resolution.specs.Resolution.{leaf_or, named, relation_of};
ghost use Rattle.mz_resolution.specs.Steps.{each};
ghost use Rattle.mz_select.specs.Gives.{Gives, Is};
ghost use Rattle.mz_resolve.specs.InCatalog.{items_below, names_below, scope_in};
ghost use Rattle.mz_resolve.specs.Known.{IsTrueOf, stands_for};
ghost use Rattle.mz_resolve.specs.Unknown.{selects_of, unknown_in, unknown_named, unknown_of};

use crate::known::{Known, known_at};
use crate::lookups::{item_below, query_of};
use crate::queries::{select_over, united};
use mz_catalog::Catalog;
use mz_plan::{Item, ItemKind, Plan};
use mz_refusal::{CallFault, Refusal};
use mz_resolution::{NamedRelation, Referred, Relation};
use mz_select::{unknown_name, wrong_name};
use mz_statement::{Columns, Join, Reference, Select};
use mz_value::Name;
use std::alloc::{AllocError, Global};

// What is read in place of a plan: the index, where there is one. Takes no memory.
fn leaf_or(index: Option<u64>, below: Plan) -> Plan
    ensures { result ≡ leaf_or index below }
{
    match index {
        Some(index) => Plan::Index(index),
        None => below,
    }
}

/// A relation of the item of this number, which is read by its oldest index where it has one.
pub fn relation_of(
    catalog: &Catalog,
    cluster: u64,
    item: u64,
    columns: Columns,
    below: Plan,
    tables: u64,
) -> NamedRelation
    ensures { result ≡ relation_of (scope_in catalog.now cluster) item columns below tables }
{
    let plan = leaf_or(catalog.oldest_index(item, cluster), below);
    NamedRelation {
        item,
        relation: Relation {
            columns,
            plan,
            tables,
        },
    }
}

/// What a reference calls its relation.
pub fn name_or(alloc: Global, alias: &Option<Name>, name: &Name) -> Result<Name, AllocError>
    ensures { IfOk result (λ called. called ≡ name_or alias.now name.now) }
{
    match alias {
        Some(alias) => alias.try_copy(alloc),
        None => name.try_copy(alloc),
    }
}

/// The relation without the number of its item.
pub fn without_number(found: NamedRelation) -> Relation
    ensures { result ≡ found.relation }
{
    found.relation
}

/// The plan of a relation, and how many tables it names.
pub fn plan_and_tables(relation: Relation) -> (Plan, u64)
    ensures plan { result.0 ≡ relation.plan }
    ensures tables { result.1 ≡ relation.tables }
{
    (relation.plan, relation.tables)
}

/// What a name stands for among the items whose numbers are below this one, where its item is known. O(1) expected,
/// and a copy of its plan.
pub fn named_by(
    alloc: Global,
    catalog: &Catalog,
    cluster: u64,
    known: &Known,
    below: u64,
    name: &Name,
) -> Result<NamedRelation, CallFault>
    requires holds { IsTrueOf catalog.now cluster known.now.entries }
    requires reached { unknown_named known.now.entries catalog.now below name.now ≡ None }
    ensures { Is result
        (named (scope_in catalog.now cluster) (items_below below catalog.now.items) name.now) }
{
    match item_below(catalog, below, name) {
        Some(item) => known_at(alloc, known, item.id),
        None => Err(CallFault::Refused(unknown_name(alloc, name)?)),
    }
}

// The relation that a reference names, by what it is called.
fn referred(
    alloc: Global,
    catalog: &Catalog,
    cluster: u64,
    known: &Known,
    below: u64,
    reference: &Reference,
) -> Result<Referred, CallFault>
    requires holds { IsTrueOf catalog.now cluster known.now.entries }
    requires reached { unknown_named known.now.entries catalog.now below reference.now.name ≡ None }
    ensures { Is result (referred (names_below catalog.now cluster below) reference.now) }
{
    let found = named_by(alloc, catalog, cluster, known, below, &reference.name)?;
    Ok(Referred {
        called: name_or(alloc, &reference.alias, &reference.name)?,
        relation: without_number(found),
    })
}

// The relations that JOINs name.
fn joined(
    alloc: Global,
    catalog: &Catalog,
    cluster: u64,
    known: &Known,
    below: u64,
    joins: &[Join],
) -> Result<Vec<Referred>, CallFault>
    requires holds { IsTrueOf catalog.now cluster known.now.entries }
    requires reached { unknown_of known.now.entries catalog.now below
        (map (λ join. join.reference) joins.now) ≡ None }
    ensures { Gives (λ found. found.items) result
        (each (λ join. referred (names_below catalog.now cluster below) join.reference) joins.now) }
{
    let mut found = Vec::with_capacity(alloc, joins.len())?;
    'joins: for join in joins {
        found.push(referred(alloc, catalog, cluster, known, below, &join.reference)?)?;
    }
    Ok(found)
}

// The relation of a select.
fn selected(
    alloc: Global,
    catalog: &Catalog,
    cluster: u64,
    known: &Known,
    below: u64,
    select: &Select,
) -> Result<Relation, CallFault>
    requires holds { IsTrueOf catalog.now cluster known.now.entries }
    requires reached { unknown_of known.now.entries catalog.now below
        (references select.now) ≡ None }
    ensures { Is result (selected (names_below catalog.now cluster below) select.now) }
{
    let first = referred(alloc, catalog, cluster, known, below, &select.first)?;
    let others = joined(
        alloc,
        catalog,
        cluster,
        known,
        below,
        select.joins.as_slice(),
    )?;
    select_over(alloc, first, others, select)
}

// The relations of selects.
fn all_selected(
    alloc: Global,
    catalog: &Catalog,
    cluster: u64,
    known: &Known,
    below: u64,
    selects: &[Select],
) -> Result<Vec<Relation>, CallFault>
    requires holds { IsTrueOf catalog.now cluster known.now.entries }
    requires reached { unknown_in known.now.entries catalog.now below selects.now ≡ None }
    ensures { Gives (λ found. found.items) result
        (each (selected (names_below catalog.now cluster below)) selects.now) }
{
    let mut found = Vec::with_capacity(alloc, selects.len())?;
    'selects: for select in selects {
        found.push(selected(alloc, catalog, cluster, known, below, select)?)?;
    }
    Ok(found)
}

/// The relation of a query over the items whose numbers are below this one, where all that it names are known. Time
/// follows the query, and a copy of a plan for each reference.
pub fn queried_by(
    alloc: Global,
    catalog: &Catalog,
    cluster: u64,
    known: &Known,
    below: u64,
    selects: &[Select],
) -> Result<Relation, CallFault>
    requires holds { IsTrueOf catalog.now cluster known.now.entries }
    requires reached { unknown_in known.now.entries catalog.now below selects.now ≡ None }
    ensures { Is result (queried (names_below catalog.now cluster below) selects.now) }
{
    match selects {
        [] => Err(CallFault::Refused(Refusal::TooManyLeaves { has: 0 })),
        [first, others @ ..] => {
            let first = selected(alloc, catalog, cluster, known, below, first)?;
            let others = all_selected(alloc, catalog, cluster, known, below, others)?;
            united(alloc, first, others)
        }
    }
}

/// What an item stands for, where all that its query names are known.
pub fn item_relation(
    alloc: Global,
    catalog: &Catalog,
    cluster: u64,
    known: &Known,
    item: &Item,
) -> Result<NamedRelation, CallFault>
    requires holds { IsTrueOf catalog.now cluster known.now.entries }
    requires reached { unknown_in known.now.entries catalog.now item.now.id
        (selects_of item.now.kind) ≡ None }
    ensures { Is result (stands_for catalog.now cluster item.now) }
{
    match &item.kind {
        ItemKind::Table(columns) => {
            let columns = columns.try_copy(alloc)?;
            Ok(relation_of(catalog, cluster, item.id, columns, Plan::Table(item.id), 1))
        }
        ItemKind::View(columns, statement) => {
            let selects = query_of(statement);
            let below = queried_by(alloc, catalog, cluster, known, item.id, selects)?;
            let columns = columns.try_copy(alloc)?;
            let (plan, tables) = plan_and_tables(below);
            Ok(relation_of(catalog, cluster, item.id, columns, plan, tables))
        }
        ItemKind::Index(_, _) => Err(CallFault::Refused(wrong_name(alloc, &item.name)?)),
    }
}
