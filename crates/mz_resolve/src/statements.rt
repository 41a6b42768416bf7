//! Statements resolved.
ghost use Rattle.std.specs.Prelude.{◌≡◌, [], None};
ghost use Rattle.mz_resolution.specs.Resolution.{named, newest_first, query_in, resolution};
ghost use Rattle.mz_select.specs.Gives.{Is};
ghost use Rattle.mz_resolve.specs.InCatalog.{scope_in};
ghost use Rattle.mz_statement.specs.declared.statement.Statement.TheVariants as the;

use crate::commands::{delete, drop_index, drop_table, drop_view, insert};
use crate::reached::{named, queried};
use mz_catalog::Catalog;
use mz_plan::{Plan, Resolved};
use mz_refusal::{CallFault, Refusal};
use mz_resolution::{NamedRelation, Relation};
use mz_select::{are_few, too_many_columns};
use mz_statement::{Columns, Query, Select, Statement};
use mz_value::Name;
use std::alloc::Global;

// The relation of a query over all items.
fn query_in(
    alloc: Global,
    catalog: &Catalog,
    cluster: u64,
    selects: &[Select],
) -> Result<Relation, CallFault>
    ensures { Is result (query_in (scope_in catalog.now cluster) selects.now) }
{
    queried(alloc, catalog, cluster, catalog.next(), selects)
}

// The plan of a relation.
fn plan_of(relation: Relation) -> Plan
    ensures { result ≡ relation.plan }
{
    relation.plan
}

// The columns of a relation.
fn columns_of(relation: Relation) -> Columns
    ensures { result ≡ relation.columns }
{
    relation.columns
}

// The number of the item, and its plan.
fn item_and_plan(found: NamedRelation) -> (u64, Plan)
    ensures item { result.0 ≡ found.item }
    ensures plan { result.1 ≡ found.relation.plan }
{
    let relation = found.relation;
    (found.item, relation.plan)
}

// What a query asks for.
fn query(
    alloc: Global,
    catalog: &Catalog,
    cluster: u64,
    query: &Query,
) -> Result<Resolved, CallFault>
    ensures { Is result (resolution (scope_in catalog.now cluster) (the.Query query.now None)) }
{
    let relation = query_in(alloc, catalog, cluster, query.as_slice())?;
    Ok(Resolved::Query(plan_of(relation)))
}

// What a CREATE TABLE asks for, in every catalog and cluster.
fn create_table(alloc: Global, name: &Name, columns: &Columns) -> Result<Resolved, CallFault>
    ensures { Is result
        (resolution (record { items = []; cluster = 0 }) (the.CreateTable name.now columns.now)) }
{
    if are_few(columns.as_slice()) {
        let name = name.try_copy(alloc)?;
        Ok(Resolved::CreateTable(name, columns.try_copy(alloc)?))
    } else {
        Err(CallFault::Refused(too_many_columns()))
    }
}

// What a CREATE VIEW asks for.
fn create_view(
    alloc: Global,
    catalog: &Catalog,
    cluster: u64,
    name: &Name,
    query: &Query,
) -> Result<Resolved, CallFault>
    ensures { Is result
        (resolution (scope_in catalog.now cluster) (the.CreateView name.now query.now)) }
{
    let columns = columns_of(query_in(alloc, catalog, cluster, query.as_slice())?);
    let name = name.try_copy(alloc)?;
    let query = Statement::Query(query.try_copy(alloc)?, None);
    Ok(Resolved::CreateView(name, columns, query))
}

// The relation that a name stands for among all items.
fn named_in(
    alloc: Global,
    catalog: &Catalog,
    cluster: u64,
    name: &Name,
) -> Result<NamedRelation, CallFault>
    ensures { Is result (named (scope_in catalog.now cluster)
        (newest_first (scope_in catalog.now cluster)) name.now) }
{
    named(alloc, catalog, cluster, catalog.next(), name)
}

// What a CREATE INDEX asks for.
fn create_index(
    alloc: Global,
    catalog: &Catalog,
    cluster: u64,
    name: &Name,
    on: &Name,
) -> Result<Resolved, CallFault>
    ensures { Is result
        (resolution (scope_in catalog.now cluster) (the.CreateIndex name.now on.now)) }
{
    let name = name.try_copy(alloc)?;
    let (item, plan) = item_and_plan(named_in(alloc, catalog, cluster, on)?);
    Ok(Resolved::CreateIndex(name, item, plan, cluster))
}

/// What a query or a command asks for over the items of a catalog, by the indexes of one cluster; or the
/// first refusal. An AS OF is not looked at.
pub fn resolve(
    alloc: Global,
    statement: &Statement,
    catalog: &Catalog,
    cluster: u64,
) -> Result<Resolved, CallFault>
    ensures { Is result (resolution (scope_in catalog.now cluster) statement.now) }
{
    match statement {
        Statement::Query(selects, _) => query(alloc, catalog, cluster, selects),
        Statement::CreateTable(name, columns) => create_table(alloc, name, columns),
        Statement::CreateView(name, query) => create_view(alloc, catalog, cluster, name, query),
        Statement::CreateIndex(name, on) => create_index(alloc, catalog, cluster, name, on),
        Statement::DropTable(name) => drop_table(alloc, catalog, name),
        Statement::DropView(name) => drop_view(alloc, catalog, name),
        Statement::DropIndex(name) => drop_index(alloc, catalog, name),
        Statement::Insert(name, rows) => insert(alloc, catalog, name, rows),
        Statement::Delete(name, test) => delete(alloc, catalog, name, test),
        _ => Err(CallFault::Refused(Refusal::Syntax { at: 0 })),
    }
}
