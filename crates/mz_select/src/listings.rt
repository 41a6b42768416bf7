//! What the items of a select give: its columns, and where they are in the rows below.
ghost use Rattle.mz_value.specs.Name.{is_name};
ghost use Rattle.mz_resolution.specs.Columns.{name_or};
ghost use Rattle.mz_resolution.specs.Listings.{aggregates_in, behind, column_as, expressed, has_aggregate, has_group, is_aggregate, items_from, key_at, keys_before, keys_of, listing, listing_of, own_column, plain, star, summed};
ghost use Rattle.mz_refusal.specs.declared.refusal.Refusal.TheVariants.{WrongType};
ghost use Rattle.mz_plan.specs.declared.aggregate.Aggregate.TheVariants.{Count, Max, Min};
ghost use Rattle.mz_statement.specs.declared.column.ColumnType.TheVariants.{Wide};
ghost use Rattle.mz_select.specs.Gives.{Gives, Is};
ghost use Rattle.std.specs.List.{list_any, position};
ghost use Rattle.std.specs.Prelude.{◌≡◌, ◌==◌, ◌+◌, ◌<◌, ◌≤◌, ◌^◌, ◌||◌, IfOk, Ok, codes, filter_map, length, map, true};

use crate::columns::{SeenColumn, Sight};
use crate::conditions::same_type;
use crate::faults::{wrong_column, wrong_part};
use mz_plan::{Aggregate, Aggregates, Places};
use mz_refusal::{CallFault, Refusal};
use mz_resolution::{ListedItem, Listing};
use mz_statement::{
    Column, ColumnName, ColumnType, Columns, Expression, Select, SelectItem, SelectItems,
};
use mz_value::{Name, Text};
use std::alloc::{AllocError, Global};

// Whether an expression is an aggregate.
fn is_aggregate(expression: &Expression) -> bool
    ensures { result ≡ is_aggregate expression.now }
{
    match expression {
        Expression::Column(_) => false,
        Expression::Count | Expression::Sum(_) | Expression::Min(_) | Expression::Max(_) => true,
    }
}

// Whether one of these items is an aggregate.
fn is_aggregate_any(items: &[SelectItem]) -> bool
    ensures { result ≡ list_any (λ item. is_aggregate item.expression) items.now }
{
    'items: for item in items {
        if is_aggregate(&item.expression) {
            return true;
        }
    }
    false
}

// Whether one of the items of a select is an aggregate.
fn has_aggregate(items: &Option<SelectItems>) -> bool
    ensures { result ≡ has_aggregate items.now }
{
    match items {
        Some(items) => is_aggregate_any(items.as_slice()),
        None => false,
    }
}

// Whether there is a GROUP BY.
fn has_group(columns: &[ColumnName]) -> bool
    ensures { result ≡ has_group columns.now }
{
    match columns {
        [] => false,
        [_, ..] => true,
    }
}

// Whether rows are grouped, by a GROUP BY or for an aggregate.
fn is_grouped(select: &Select) -> bool
    ensures { result ≡ (has_group select.now.group || has_aggregate select.now.items) }
{
    has_group(select.group.as_slice()) || has_aggregate(&select.items)
}

/// The keys of a grouping, where there is a GROUP BY or an aggregate. Takes no memory.
pub fn keys_of(select: &Select, places: Vec<u64>) -> Option<Places>
    ensures { result ≡ keys_of select.now places.items }
{
    if is_grouped(select) {
        Some(Places::from_vec(places))
    } else {
        None
    }
}

// The name behind AS, or this word where there is none.
fn name_or(alloc: Global, alias: &Option<Name>, word: &[u8]) -> Result<Name, AllocError>
    requires { is_name word.now ≡ true }
    ensures { IfOk result (λ name. name ≡ name_or alias.now word.now) }
{
    match alias {
        Some(alias) => alias.try_copy(alloc),
        None => Name::new(alloc, word),
    }
}

// A column of a result.
fn column_as(
    alloc: Global,
    alias: &Option<Name>,
    word: &[u8],
    kind: ColumnType,
) -> Result<Column, AllocError>
    requires { is_name word.now ≡ true }
    ensures { IfOk result (λ column. column ≡ column_as alias.now word.now kind) }
{
    Ok(Column {
        name: name_or(alloc, alias, word)?,
        kind,
    })
}

// How many columns the keys of a grouping have, none where there is no grouping.
fn keys_before(keys: &Option<Places>) -> u64
    ensures { result ≡ keys_before keys.now }
{
    match keys {
        Some(keys) => keys.as_slice().len() as u64,
        None => 0,
    }
}

// An aggregate stands behind the keys and the aggregates before it. A place past the end of numbers, which no
// select reaches, is want of memory.
fn behind(
    keys: &Option<Places>,
    before: u64,
    column: Column,
    found: Aggregate,
) -> Result<ListedItem, CallFault>
    ensures { Is result (Ok (behind keys.now before column found)) }
{
    match keys_before(keys).checked_add(before) {
        Some(place) => Ok(ListedItem {
            column,
            place,
            aggregate: Some(found),
        }),
        None => Err(CallFault::Memory),
    }
}

// A column at this place; where there is none it is no key.
fn key_at(
    alloc: Global,
    name: &ColumnName,
    column: Column,
    place: Option<usize>,
) -> Result<ListedItem, CallFault>
    ensures { Is result (key_at name.now column place) }
{
    match place {
        Some(place) => Ok(ListedItem {
            column,
            place: place as u64,
            aggregate: None,
        }),
        None => Err(CallFault::Refused(wrong_column(alloc, name)?)),
    }
}

// The first place of a key.
fn position(keys: &[u64], place: u64) -> Option<usize>
    ensures { result ≡ position (λ key. key == place) keys.now }
{
    keys.iter().position(|key| *key == place)
}

// A column is at its place, or in a grouping at its first place among the keys, of which it has to be one.
fn plain<'a>(
    alloc: Global,
    keys: &Option<Places>,
    name: &ColumnName,
    column: Column,
    seen: &SeenColumn<'a>,
) -> Result<ListedItem, CallFault>
    ensures { Is result (plain keys.now name.now column seen.now) }
{
    match keys {
        Some(keys) => key_at(alloc, name, column, position(keys.as_slice(), seen.place())),
        None => Ok(ListedItem {
            column,
            place: seen.place(),
            aggregate: None,
        }),
    }
}

// A column of SUM, which has to be an INT.
fn summed<'a>(
    alloc: Global,
    keys: &Option<Places>,
    before: u64,
    alias: &Option<Name>,
    name: &ColumnName,
    seen: &SeenColumn<'a>,
) -> Result<ListedItem, CallFault>
    ensures { Is result (summed keys.now before alias.now name.now seen.now) }
{
    if !same_type(seen.kind(), ColumnType::Int) {
        return Err(CallFault::Refused(wrong_column(alloc, name)?));
    }
    let column = column_as(alloc, alias, b"sum".as_slice(), ColumnType::Wide)?;
    behind(keys, before, column, Aggregate::Sum(seen.place()))
}

// COUNT.
fn counted(
    alloc: Global,
    keys: &Option<Places>,
    before: u64,
    alias: &Option<Name>,
) -> Result<ListedItem, CallFault>
    ensures { Is result (Ok (behind keys.now before
        (column_as alias.now (codes "count") Wide) Count)) }
{
    let column = column_as(alloc, alias, b"count".as_slice(), ColumnType::Wide)?;
    behind(keys, before, column, Aggregate::Count)
}

// MIN of a column.
fn least<'a>(
    alloc: Global,
    keys: &Option<Places>,
    before: u64,
    alias: &Option<Name>,
    seen: &SeenColumn<'a>,
) -> Result<ListedItem, CallFault>
    ensures { Is result (Ok (behind keys.now before
        (column_as alias.now (codes "min") seen.now.kind) (Min seen.now.place))) }
{
    let column = column_as(alloc, alias, b"min".as_slice(), seen.kind())?;
    behind(keys, before, column, Aggregate::Min(seen.place()))
}

// MAX of a column.
fn greatest<'a>(
    alloc: Global,
    keys: &Option<Places>,
    before: u64,
    alias: &Option<Name>,
    seen: &SeenColumn<'a>,
) -> Result<ListedItem, CallFault>
    ensures { Is result (Ok (behind keys.now before
        (column_as alias.now (codes "max") seen.now.kind) (Max seen.now.place))) }
{
    let column = column_as(alloc, alias, b"max".as_slice(), seen.kind())?;
    behind(keys, before, column, Aggregate::Max(seen.place()))
}

// A column, under its own name where AS gives none.
fn column_listed<'a>(
    alloc: Global,
    keys: &Option<Places>,
    alias: &Option<Name>,
    name: &ColumnName,
    seen: &SeenColumn<'a>,
) -> Result<ListedItem, CallFault>
    ensures { Is result (plain keys.now name.now
        (column_as alias.now name.now.name seen.now.kind) seen.now) }
{
    let column = column_as(alloc, alias, name.name.as_bytes(), seen.kind())?;
    plain(alloc, keys, name, column, seen)
}

// An expression with the name behind AS, where there is one, and so many aggregates before it.
fn expressed<'a>(
    alloc: Global,
    sight: &Sight<'a>,
    keys: &Option<Places>,
    before: u64,
    alias: &Option<Name>,
    expression: &Expression,
) -> Result<ListedItem, CallFault>
    ensures { Is result (expressed sight.now keys.now before alias.now expression.now) }
{
    match expression {
        Expression::Column(name) => {
            column_listed(alloc, keys, alias, name, sight.meant(alloc, name)?)
        }
        Expression::Count => counted(alloc, keys, before, alias),
        Expression::Sum(name) => {
            summed(alloc, keys, before, alias, name, sight.meant(alloc, name)?)
        }
        Expression::Min(name) => least(alloc, keys, before, alias, sight.meant(alloc, name)?),
        Expression::Max(name) => greatest(alloc, keys, before, alias, sight.meant(alloc, name)?),
    }
}

// The items in order.
#[tactic(auto, using(crate::proofs::Fronts::fronts))]
fn items_from<'a>(
    alloc: Global,
    sight: &Sight<'a>,
    keys: &Option<Places>,
    items: &[SelectItem],
) -> Result<Vec<ListedItem>, CallFault>
    ensures { Gives (λ list. list.items) result (items_from sight.now keys.now 0 items.now) }
{
    let mut list = Vec::with_capacity(alloc, items.len())?;
    let mut before = 0;
    'items: for item in items {
        let listed = expressed(alloc, sight, keys, before, &item.alias, &item.expression)?;
        before += aggregates_in(&listed);
        list.push(listed)?;
    }
    Ok(list)
}

// 1 for an aggregate.
fn aggregates_in(listed: &ListedItem) -> u64
    ensures count { result ≡ aggregates_in listed.now.aggregate }
    ensures one { result ≤ 1 }
{
    match listed.aggregate {
        Some(_) => 1,
        None => 0,
    }
}

// The columns under their own names.
fn own_columns<'a>(alloc: Global, columns: &[SeenColumn<'a>]) -> Result<Vec<Column>, AllocError>
    ensures { IfOk result (λ own. own.items ≡ map own_column columns.now) }
{
    let mut own = Vec::with_capacity(alloc, columns.len())?;
    'columns: for seen in columns {
        own.push(Column {
            name: seen.name().try_copy(alloc)?,
            kind: seen.kind(),
        })?;
    }
    Ok(own)
}

// All columns under their own names, which is what `*` gives.
fn star<'a>(alloc: Global, sight: &Sight<'a>, keys: &Option<Places>) -> Result<Listing, CallFault>
    ensures { Is result (star sight.now keys.now) }
{
    match keys {
        Some(_) => Err(CallFault::Refused(wrong_part(alloc, "*")?)),
        None => Ok(Listing {
            columns: Columns::from_vec(own_columns(alloc, sight.columns())?),
            places: None,
            aggregates: Aggregates::from_vec(Vec::new(alloc)),
        }),
    }
}

// The places of items in the rows below.
fn places_of(alloc: Global, items: &[ListedItem]) -> Result<Vec<u64>, AllocError>
    ensures { IfOk result (λ places. places.items ≡ map (λ item. item.place) items.now) }
{
    let mut places = Vec::with_capacity(alloc, items.len())?;
    'items: for item in items {
        places.push(item.place)?;
    }
    Ok(places)
}

// The aggregates among items.
fn aggregates_of(alloc: Global, items: &[ListedItem]) -> Result<Vec<Aggregate>, AllocError>
    ensures { IfOk result (λ found. found.items ≡ filter_map (λ item. item.aggregate) items.now) }
{
    let mut found = Vec::new(alloc);
    'items: for item in items {
        if let Some(aggregate) = item.aggregate {
            found.push(aggregate)?;
        }
    }
    Ok(found)
}

// The columns of items.
fn columns_of(alloc: Global, items: Vec<ListedItem>) -> Result<Vec<Column>, AllocError>
    ensures { IfOk result (λ columns. columns.items ≡ map (λ item. item.column) items.items) }
{
    let mut columns = Vec::with_capacity(alloc, items.len())?;
    'items: for item in items {
        columns.push(item.column)?;
    }
    Ok(columns)
}

// What these items give.
fn listing_of(alloc: Global, items: Vec<ListedItem>) -> Result<Listing, AllocError>
    ensures { IfOk result (λ found. found ≡ listing_of items.items) }
{
    let places = Places::from_vec(places_of(alloc, &items)?);
    let aggregates = Aggregates::from_vec(aggregates_of(alloc, &items)?);
    Ok(Listing {
        columns: Columns::from_vec(columns_of(alloc, items)?),
        places: Some(places),
        aggregates,
    })
}

/// What the items of a select give over the keys of its grouping. A place past the end of numbers, which no
/// select reaches, is want of memory. Time follows the items, each with the columns that it sees and the keys.
pub fn listing<'a>(
    alloc: Global,
    sight: &Sight<'a>,
    keys: &Option<Places>,
    items: &Option<SelectItems>,
) -> Result<Listing, CallFault>
    ensures { Is result (listing sight.now keys.now items.now) }
{
    match items {
        Some(items) => {
            let found = items_from(alloc, sight, keys, items.as_slice())?;
            Ok(listing_of(alloc, found)?)
        }
        None => star(alloc, sight, keys),
    }
}
