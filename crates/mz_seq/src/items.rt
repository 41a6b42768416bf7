//! What a CREATE and a DROP do to the catalog, and what they are told.
ghost use Rattle.std.specs.Prelude.{◌≡◌, [], None, Some, option_map, IfOk, OnErr, IsSome};
ghost use Rattle.mz_plan.specs.Items.{numbered, dependents};
ghost use Rattle.mz_log.specs.CarriedOut.{has_column, held_back, twin_behind, unmakable};
ghost use Rattle.mz_seq.specs.Told.{twin_name, IsMade, IsRemoved, Tells};

use mz_catalog::{Catalog, CatalogFault};
use mz_log::SeqReply;
use mz_plan::Item;
use mz_refusal::{Limited, Refusal};
use mz_statement::Column;
use mz_value::Name;
use std::alloc::{AllocError, Global};

// Whether one of the columns has this name.
fn has_column(columns: &[Column], name: &Name) -> bool
    ensures { result ≡ has_column columns.now name.now }
{
    columns.iter().any(|column| column.name == *name)
}

// The first column whose name an earlier one has. O(n^2), where there are n columns.
fn twin(columns: &[Column]) -> Option<&Column>
    ensures { option_map (λ column. twin_name column.now) result ≡ twin_behind [] columns.now }
{
    'places: for place in 0..columns.len() {
        if has_column(&columns[..place], &columns[place].name) {
            return Some(&columns[place]);
        }
    }
    None
}

// What a command is told that the catalog refuses.
fn told(fault: CatalogFault) -> Result<SeqReply, AllocError>
    ensures { IfOk result (λ reply. Tells fault reply) }
{
    match fault {
        CatalogFault::NameTaken { name } => Ok(SeqReply::Refused(Refusal::NameTaken { name })),
        CatalogFault::TooMany { limit } => Ok(SeqReply::Refused(Refusal::TooMany {
            what: Limited::Items,
            limit,
        })),
        CatalogFault::HasDependents { name } => {
            Ok(SeqReply::Refused(Refusal::HasDependents { name }))
        }
        CatalogFault::Memory => Err(AllocError),
    }
}

// Adds an item to the catalog, unless it is refused.
fn add(catalog: &mut Catalog, item: Item) -> Result<SeqReply, AllocError>
    ensures made { IfOk result
        (λ reply. IsMade (unmakable catalog.old.items item.name []) item catalog.old catalog.new reply) }
    ensures err { OnErr result (catalog.new ≡ catalog.old) }
{
    match catalog.add(item) {
        Ok(id) => Ok(SeqReply::Created(id)),
        Err(fault) => told(fault),
    }
}

/// Makes an item with these columns, unless it is refused. After an `Err` the catalog is as before. O(1) expected, and
/// O(n^2) where there are n columns.
pub fn make(
    alloc: Global,
    catalog: &mut Catalog,
    columns: &[Column],
    item: Item,
) -> Result<SeqReply, AllocError>
    ensures made { IfOk result
        (λ reply. IsMade (unmakable catalog.old.items item.name columns.now) item catalog.old
        catalog.new reply) }
    ensures err { OnErr result (catalog.new ≡ catalog.old) }
{
    match twin(columns) {
        Some(column) => Ok(SeqReply::Refused(Refusal::NameTaken {
            name: column.name.try_copy(alloc)?,
        })),
        None => add(catalog, item),
    }
}

/// Removes the item of this number, unless something depends on it. After an `Err` the catalog is as before. O(n), where
/// there are n items.
pub fn remove(catalog: &mut Catalog, id: u64) -> Result<SeqReply, AllocError>
    requires { IsSome (numbered id catalog.old.items) }
    ensures removed { IfOk result
        (λ reply. IsRemoved (held_back (dependents id catalog.old.items)) id catalog.old catalog.new
        reply) }
    ensures err { OnErr result (catalog.new ≡ catalog.old) }
{
    match catalog.remove(id) {
        Ok(()) => Ok(SeqReply::Dropped),
        Err(fault) => told(fault),
    }
}
