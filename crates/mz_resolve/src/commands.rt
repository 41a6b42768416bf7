//! Commands that need no relation: DROP, INSERT and DELETE.
ghost use Rattle.std.specs.Prelude.{◌≡◌, Ok, Err, length, option_map, if◌then◌else◌};
ghost use Rattle.mz_plan.specs.Items.{named, is_index, is_table, is_view};
ghost use Rattle.mz_resolution.specs.Resolution.{dropped, first_misfit, item_of, misfit, misplaced, resolution, table_columns};
ghost use Rattle.mz_refusal.specs.declared.refusal.Refusal.TheVariants.{WrongType};
ghost use Rattle.mz_plan.specs.declared.resolved.Resolved.TheVariants as resolved;
ghost use Rattle.mz_statement.specs.declared.statement.Statement.TheVariants as statement;
ghost use Rattle.mz_select.specs.Gives.{Gives, Is};
ghost use Rattle.mz_resolve.specs.InCatalog.{scope_in};

use mz_catalog::Catalog;
use mz_plan::{Item, ItemKind, Resolved};
use mz_refusal::CallFault;
use mz_select::{Sight, condition, same_type, type_of, unknown_name, wrong_name};
use mz_statement::{Column, Columns, Condition};
use mz_value::{Datum, Name, Row, Rows};
use std::alloc::Global;

// The item of a name.
fn item_in<'c>(alloc: Global, catalog: &'c Catalog, name: &Name) -> Result<&'c Item, CallFault>
    ensures { Gives (λ item. item.now) result
        (item_of name.now (named name.now catalog.now.items)) }
{
    match catalog.find(name) {
        Some(id) => Ok(catalog.item(id)),
        None => Err(CallFault::Refused(unknown_name(alloc, name)?)),
    }
}

// Whether what is of this kind is a table.
fn is_table(kind: &ItemKind) -> bool
    ensures { result ≡ is_table kind.now }
{
    matches!(kind, ItemKind::Table(_))
}

// Whether what is of this kind is a view.
fn is_view(kind: &ItemKind) -> bool
    ensures { result ≡ is_view kind.now }
{
    matches!(kind, ItemKind::View(_, _))
}

// Whether what is of this kind is an index.
fn is_index(kind: &ItemKind) -> bool
    ensures { result ≡ is_index kind.now }
{
    matches!(kind, ItemKind::Index(_, _))
}

// The removal of the item of this number, where it is of the right kind.
fn dropped(alloc: Global, is_kind: bool, item: u64, name: &Name) -> Result<Resolved, CallFault>
    ensures { Is result (if is_kind then Ok (resolved.Drop item) else Err (WrongType name.now)) }
{
    if is_kind {
        Ok(Resolved::Drop(item))
    } else {
        Err(CallFault::Refused(wrong_name(alloc, name)?))
    }
}

/// What a DROP TABLE asks for, in every cluster.
pub fn drop_table(alloc: Global, catalog: &Catalog, name: &Name) -> Result<Resolved, CallFault>
    ensures { Is result (dropped (scope_in catalog.now 0) is_table name.now) }
{
    let item = item_in(alloc, catalog, name)?;
    dropped(alloc, is_table(&item.kind), item.id, name)
}

/// What a DROP VIEW asks for, in every cluster.
pub fn drop_view(alloc: Global, catalog: &Catalog, name: &Name) -> Result<Resolved, CallFault>
    ensures { Is result (dropped (scope_in catalog.now 0) is_view name.now) }
{
    let item = item_in(alloc, catalog, name)?;
    dropped(alloc, is_view(&item.kind), item.id, name)
}

/// What a DROP INDEX asks for, in every cluster.
pub fn drop_index(alloc: Global, catalog: &Catalog, name: &Name) -> Result<Resolved, CallFault>
    ensures { Is result (dropped (scope_in catalog.now 0) is_index name.now) }
{
    let item = item_in(alloc, catalog, name)?;
    dropped(alloc, is_index(&item.kind), item.id, name)
}

// The columns of a table.
fn table_columns<'c>(
    alloc: Global,
    name: &Name,
    kind: &'c ItemKind,
) -> Result<&'c Columns, CallFault>
    ensures { Gives (λ columns. columns.now) result (table_columns name.now kind.now) }
{
    match kind {
        ItemKind::Table(columns) => Ok(columns),
        _ => Err(CallFault::Refused(wrong_name(alloc, name)?)),
    }
}

// The column of the first value that isn't of its column's type. Takes no memory.
fn misplaced<'c>(columns: &'c [Column], values: &[Datum]) -> Option<&'c Name>
    ensures { option_map (λ name. WrongType name.now) result ≡ misplaced columns.now values.now }
{
    match columns {
        [] => None,
        [column, columns @ ..] => match values {
            [] => None,
            [value, values @ ..] => {
                if same_type(column.kind, type_of(value)) {
                    misplaced(columns, values)
                } else {
                    Some(&column.name)
                }
            }
        },
    }
}

// What a row that doesn't fit is refused by: the table, or a column. Takes no memory.
fn misfit<'c>(table: &'c Name, columns: &'c [Column], row: &[Datum]) -> Option<&'c Name>
    ensures { option_map (λ name. WrongType name.now) result
        ≡ misfit table.now columns.now row.now }
{
    if row.len() == columns.len() {
        misplaced(columns, row)
    } else {
        Some(table)
    }
}

// What the first row that doesn't fit is refused by. Takes no memory.
fn first_misfit<'c>(table: &'c Name, columns: &'c [Column], rows: &[Row]) -> Option<&'c Name>
    ensures { option_map (λ name. WrongType name.now) result
        ≡ first_misfit table.now columns.now rows.now }
{
    'rows: for row in rows {
        if let Some(name) = misfit(table, columns, row.as_slice()) {
            return Some(name);
        }
    }
    None
}

/// What an INSERT asks for, in every cluster. Time follows the values.
pub fn insert(
    alloc: Global,
    catalog: &Catalog,
    name: &Name,
    rows: &Rows,
) -> Result<Resolved, CallFault>
    ensures { Is result (resolution (scope_in catalog.now 0) (statement.Insert name.now rows.now)) }
{
    let item = item_in(alloc, catalog, name)?;
    let columns = table_columns(alloc, name, &item.kind)?;
    match first_misfit(name, columns.as_slice(), rows.as_slice()) {
        Some(name) => Err(CallFault::Refused(wrong_name(alloc, name)?)),
        None => Ok(Resolved::Insert(item.id, rows.try_copy(alloc)?)),
    }
}

/// What a DELETE asks for, in every cluster.
pub fn delete(
    alloc: Global,
    catalog: &Catalog,
    name: &Name,
    test: &Option<Condition>,
) -> Result<Resolved, CallFault>
    ensures { Is result (resolution (scope_in catalog.now 0) (statement.Delete name.now test.now)) }
{
    let item = item_in(alloc, catalog, name)?;
    let columns = table_columns(alloc, name, &item.kind)?;
    let sight = Sight::of_table(alloc, name, columns.as_slice())?;
    let cond = condition(alloc, &sight, test)?;
    Ok(Resolved::Delete(item.id, cond))
}
