//! The columns of a plan.
ghost use Rattle.std.specs.Prelude.{◌≡◌, ◌++◌, List, true, slice_get, filter_map, IfOk};
ghost use Rattle.mz_value.specs.Name.{is_name};
ghost use Rattle.mz_plan.specs.Spine.{first_of};
ghost use Rattle.mz_plan.specs.Typed.{aggregate_column, columns_at, item_columns, kind_columns, own_columns, plan_columns, relation_columns, renamed};
ghost use Rattle.mz_eval.specs.Columns.{AreColumnsBelow};

use crate::nodes::nodes;
use mz_plan::{Aggregate, Item, ItemKind, Plan, Scope};
use mz_statement::{Column, ColumnType, Columns};
use mz_value::{Name, TryCopy};
use std::alloc::{AllocError, Global};

// A copy of the columns of a table or a view. None for an index.
fn own_columns(alloc: Global, kind: &ItemKind) -> Result<Vec<Column>, AllocError>
    ensures { IfOk result (λ columns. columns.items ≡ own_columns kind.now) }
{
    match kind {
        ItemKind::Table(columns) => Ok(columns.try_copy(alloc)?.into_vec()),
        ItemKind::View(columns, _query) => Ok(columns.try_copy(alloc)?.into_vec()),
        ItemKind::Index(_on, _plan) => Ok(Vec::new(alloc)),
    }
}

// A copy of the columns of the table or view with this number.
fn relation_columns(alloc: Global, items: &[Item], id: u64) -> Result<Vec<Column>, AllocError>
    ensures { IfOk result (λ columns. columns.items ≡ relation_columns items.now id) }
{
    'items: for item in items {
        if item.id == id {
            return own_columns(alloc, &item.kind);
        }
    }
    Ok(Vec::new(alloc))
}

// A copy of the columns of an item of this kind.
fn kind_columns(alloc: Global, items: &[Item], kind: &ItemKind) -> Result<Vec<Column>, AllocError>
    ensures { IfOk result (λ columns. columns.items ≡ kind_columns items.now kind.now) }
{
    match kind {
        ItemKind::Table(columns) => Ok(columns.try_copy(alloc)?.into_vec()),
        ItemKind::View(columns, _query) => Ok(columns.try_copy(alloc)?.into_vec()),
        ItemKind::Index(on, _plan) => relation_columns(alloc, items, *on),
    }
}

// A copy of the columns of the item with this number.
fn item_columns(alloc: Global, items: &[Item], id: u64) -> Result<Vec<Column>, AllocError>
    ensures { IfOk result (λ columns. columns.items ≡ item_columns items.now items.now id) }
{
    'items: for item in items {
        if item.id == id {
            return kind_columns(alloc, items, &item.kind);
        }
    }
    Ok(Vec::new(alloc))
}

// A copy of the column at a place, where there is one.
fn column_at(alloc: Global, columns: &[Column], place: u64) -> Result<Option<Column>, AllocError>
    ensures { IfOk result (λ found. found ≡ slice_get columns.now place) }
{
    match columns.get(place as usize) {
        Some(column) => Ok(Some(column.try_copy(alloc)?)),
        None => Ok(None),
    }
}

// A copy of the columns at these places.
fn columns_at(alloc: Global, columns: &[Column], places: &[u64]) -> Result<Vec<Column>, AllocError>
    ensures { IfOk result (λ found. found.items ≡ columns_at places.now columns.now) }
{
    let mut found = Vec::new(alloc);
    'places: for place in places {
        if let Some(column) = column_at(alloc, columns, *place)? {
            found.push(column)?;
        }
    }
    Ok(found)
}

// A column.
fn column(alloc: Global, name: &[u8], kind: ColumnType) -> Result<Column, AllocError>
    requires { is_name name.now ≡ true }
    ensures { IfOk result (λ column. (column.name ≡ name.now) × (column.kind ≡ kind)) }
{
    Ok(Column {
        name: Name::new(alloc, name)?,
        kind,
    })
}

// A column of this name with the type of the one at a place.
fn renamed(
    alloc: Global,
    name: &[u8],
    columns: &[Column],
    place: u64,
) -> Result<Option<Column>, AllocError>
    requires { is_name name.now ≡ true }
    ensures { IfOk result (λ found. found ≡ renamed name.now (slice_get columns.now place)) }
{
    match columns.get(place as usize) {
        Some(other) => Ok(Some(column(alloc, name, other.kind)?)),
        None => Ok(None),
    }
}

// The column of an aggregate.
fn aggregate_column(
    alloc: Global,
    columns: &[Column],
    aggregate: Aggregate,
) -> Result<Option<Column>, AllocError>
    ensures { IfOk result (λ found. found ≡ aggregate_column columns.now aggregate) }
{
    match aggregate {
        Aggregate::Count => Ok(Some(column(alloc, "count".as_bytes(), ColumnType::Wide)?)),
        Aggregate::Sum(_place) => Ok(Some(column(alloc, "sum".as_bytes(), ColumnType::Wide)?)),
        Aggregate::Min(place) => renamed(alloc, "min".as_bytes(), columns, place),
        Aggregate::Max(place) => renamed(alloc, "max".as_bytes(), columns, place),
    }
}

// The columns of both sides.
fn joined(left: Vec<Column>, right: Vec<Column>) -> Result<Vec<Column>, AllocError>
    ensures { IfOk result (λ columns. columns.items ≡ left.items ++ right.items) }
{
    let mut columns = left;
    'right: for column in right {
        columns.push(column)?;
    }
    Ok(columns)
}

// The columns of a group: its keys, and then its aggregates.
fn group_columns(
    alloc: Global,
    columns: &[Column],
    places: &[u64],
    aggregates: &[Aggregate],
) -> Result<Vec<Column>, AllocError>
    ensures { IfOk result (λ all. all.items ≡ columns_at places.now columns.now
        ++ filter_map (aggregate_column columns.now) aggregates.now) }
{
    let mut all = columns_at(alloc, columns, places)?;
    'aggregates: for aggregate in aggregates {
        if let Some(column) = aggregate_column(alloc, columns, *aggregate)? {
            all.push(column)?;
        }
    }
    Ok(all)
}

// The columns of a plan over some items, from those of the plan below it.
#[cycle(columns)]
#[tactic(auto, using(mz_plan::proofs::TypeRules::column_rules))]
fn columns_over(
    alloc: Global,
    plan: &Plan,
    items: &[Item],
    columns: Vec<Column>,
) -> Result<Vec<Column>, AllocError>
    requires { AreColumnsBelow items.now (first_of plan.now) columns.items }
    ensures { IfOk result (λ all. all.items ≡ plan_columns items.now plan.now) }
{
    match plan {
        Plan::Table(id) => item_columns(alloc, items, *id),
        Plan::Index(id) => item_columns(alloc, items, *id),
        Plan::Filter(_below, _cond) => Ok(columns),
        Plan::Project(_below, places) => columns_at(alloc, &columns, places.as_slice()),
        Plan::Join(_left, right, _pairs) => {
            let more = plan_columns(alloc, right.get(), items)?;
            joined(columns, more)
        }
        Plan::Union(_left, _right) => Ok(columns),
        Plan::Group(_below, places, aggregates) => {
            group_columns(alloc, &columns, places.as_slice(), aggregates.as_slice())
        }
        Plan::Distinct(_below) => Ok(columns),
    }
}

// The columns of a plan over some items, from those of the last plan below it up.
#[cycle(columns)]
fn plan_columns(alloc: Global, plan: &Plan, items: &[Item]) -> Result<Vec<Column>, AllocError>
    ensures { IfOk result (λ columns. columns.items ≡ plan_columns items.now plan.now) }
{
    let mut nodes = nodes(alloc, plan, &[])?;
    let mut columns = Vec::new(alloc);
    'up: while let Some(node) = nodes.pop() {
        columns = columns_over(alloc, node.0, items, columns)?;
    }
    Ok(columns)
}

/// The columns of a plan in a scope, with their names and types. A table's column keeps its name, and that of an
/// aggregate is called `count`, `sum`, `min` or `max`, where the result of a statement has the names that its query
/// gives. A place past the columns that it is used on gives none, and so does an item that isn't in the scope.
pub fn typed(alloc: Global, plan: &Plan, scope: &Scope) -> Result<Columns, AllocError>
    ensures { IfOk result (λ columns. columns ≡ plan_columns scope.now.items plan.now) }
{
    let columns = plan_columns(alloc, plan, scope.items.as_slice())?;
    Ok(Columns::from_vec(columns))
}
