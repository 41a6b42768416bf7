//! Items by their names, and the queries that they stand for.
ghost use Rattle.std.specs.Prelude.{◌≡◌, ◌<◌, Some, IfSome, option_map};
ghost use Rattle.mz_catalog.specs.CatalogState.{IsCatalog};
ghost use Rattle.mz_plan.specs.Items.{numbered, query_of};
ghost use Rattle.mz_resolve.specs.Unknown.{item_below, selects_of};

use mz_catalog::Catalog;
use mz_plan::{Item, ItemKind};
use mz_statement::{Select, Statement};
use mz_value::Name;

/// The item of this name, where its number is below this one. Takes no memory.
pub fn item_below<'c>(catalog: &'c Catalog, below: u64, name: &Name) -> Option<&'c Item>
    ensures item { option_map (λ item. item.now) result ≡ item_below catalog.now below name.now }
    ensures below { IfSome result (λ item. item.now.id < below) }
    ensures there { IfSome result
        (λ item. numbered item.now.id catalog.now.items ≡ Some item.now) }
    ensures catalog { IsCatalog catalog.now }
{
    match catalog.find(name) {
        Some(id) if id < below => Some(catalog.item(id)),
        _ => None,
    }
}

/// The selects of the query that a view stands for. Takes no memory.
pub fn query_of(statement: &Statement) -> &[Select]
    ensures { result.now ≡ query_of statement.now }
{
    match statement {
        Statement::Query(query, _) => query.as_slice(),
        Statement::CreateView(_, query) => query.as_slice(),
        _ => &[],
    }
}

/// The selects of the query that what is of this kind stands for, none for what is no view. Takes no memory.
pub fn selects_of(kind: &ItemKind) -> &[Select]
    ensures { result.now ≡ selects_of kind.now }
{
    match kind {
        ItemKind::View(_, statement) => query_of(statement),
        _ => &[],
    }
}
