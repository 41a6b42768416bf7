//! What is known of items: what those that a statement has reached stand for.
ghost use Rattle.std.specs.Prelude.{◌≡◌, ◌<◌, ◌∷◌, ◌++◌, [], true, false, None, Some, nat_eq, map, IfOk, OnOk, OnErr, IfSome};
ghost use Rattle.std.specs.Map.{lookup};
ghost use Rattle.mz_plan.specs.Items.{references};
ghost use Rattle.mz_resolution.specs.Steps.{Step};
ghost use Rattle.mz_resolution.specs.declared.relation.NamedRelation.{NamedRelation};
ghost use Rattle.mz_select.specs.Gives.{Is};
ghost use Rattle.mz_resolve.specs.Known.{is_known};
ghost use Rattle.mz_resolve.specs.Unknown.{unknown_in, unknown_named, unknown_of};
ghost use Rattle.mz_resolve.specs.Waiting.{IsWaiting};

use crate::lookups::item_below;
use indexmap::IndexMap;
use mz_catalog::Catalog;
use mz_refusal::{CallFault, Refusal};
use mz_resolution::{NamedRelation, Relation};
use mz_statement::{Join, Select};
use mz_value::Name;
use std::alloc::{AllocError, Global};

/// What is kept of an item: what it stands for, or its first refusal.
pub type Kept = Result<NamedRelation, Refusal>;

/// Under the number of an item what is kept of it.
pub type Known = IndexMap<u64, Kept>;

// Whether the item of this number is known. O(1) expected.
fn is_known(known: &Known, id: u64) -> bool
    ensures { result ≡ is_known known.now.entries id }
{
    known.contains_key(&id)
}

// A copy of a relation.
fn copied_relation(alloc: Global, relation: &Relation) -> Result<Relation, AllocError>
    ensures { IfOk result (λ copy. copy ≡ relation.now) }
{
    Ok(Relation {
        columns: relation.columns.try_copy(alloc)?,
        plan: relation.plan.try_copy(alloc)?,
        tables: relation.tables,
    })
}

// A copy of a relation with its number.
fn copied_named(alloc: Global, named: &NamedRelation) -> Result<NamedRelation, AllocError>
    ensures { IfOk result (λ copy. copy ≡ named.now) }
{
    Ok(NamedRelation {
        item: named.item,
        relation: copied_relation(alloc, &named.relation)?,
    })
}

// What is kept of an item, copied.
fn copied(alloc: Global, kept: &Kept) -> Result<NamedRelation, CallFault>
    ensures { Is result kept.now }
{
    match kept {
        Ok(named) => Ok(copied_named(alloc, named)?),
        Err(refusal) => Err(CallFault::Refused(refusal.try_copy(alloc)?)),
    }
}

/// What was resolved, as it is kept. Want of memory is not.
pub fn kept_of(resolved: Result<NamedRelation, CallFault>) -> Result<Kept, AllocError>
    ensures { (step : Step NamedRelation) → Is resolved step
        → IfOk result (λ kept. kept ≡ step) }
{
    match resolved {
        Ok(found) => Ok(Ok(found)),
        Err(CallFault::Refused(refusal)) => Ok(Err(refusal)),
        Err(CallFault::Memory) => Err(AllocError),
    }
}

/// What the item of this number stands for, as it is known. O(1) expected, and a copy of its plan.
pub fn known_at(alloc: Global, known: &Known, id: u64) -> Result<NamedRelation, CallFault>
    requires { is_known known.now.entries id ≡ true }
    ensures { IfSome (lookup (nat_eq id) known.now.entries) (λ kept. Is result kept) }
{
    match known.get(&id) {
        Some(kept) => copied(alloc, kept),
        None => unreachable!(),
    }
}

/// Keeps what an item stands for, of which nothing is known. O(1) expected.
pub fn keep(known: &mut Known, id: u64, kept: Kept) -> Result<(), AllocError>
    requires { is_known known.old.entries id ≡ false }
    ensures ok { OnOk result (known.new.entries ≡ known.old.entries ++ (id, kept) ∷ []) }
    ensures err { OnErr result (known.new.entries ≡ known.old.entries) }
{
    drop(known.insert(id, kept)?);
    Ok(())
}

/// The number of the item that a name finds among those whose numbers are below this one, where it isn't known.
/// Takes no memory. O(1) expected.
pub fn unknown_named(known: &Known, catalog: &Catalog, below: u64, name: &Name) -> Option<u64>
    ensures first { result ≡ unknown_named known.now.entries catalog.now below name.now }
    ensures below { IfSome result (λ id. id < below) }
    ensures waits { IfSome result (λ id. IsWaiting known.now.entries catalog.now.items id) }
{
    let item = item_below(catalog, below, name)?;
    if is_known(known, item.id) {
        return None;
    }
    Some(item.id)
}

// The number of the first item that a JOIN names and that isn't known.
fn unknown_joined(known: &Known, catalog: &Catalog, below: u64, joins: &[Join]) -> Option<u64>
    ensures first { result ≡ unknown_of known.now.entries catalog.now below
        (map (λ join. join.reference) joins.now) }
    ensures below { IfSome result (λ id. id < below) }
    ensures waits { IfSome result (λ id. IsWaiting known.now.entries catalog.now.items id) }
{
    'joins: for join in joins {
        if let Some(id) = unknown_named(known, catalog, below, &join.reference.name) {
            return Some(id);
        }
    }
    None
}

// The number of the first item that a select names and that isn't known.
fn unknown_of(known: &Known, catalog: &Catalog, below: u64, select: &Select) -> Option<u64>
    ensures first { result
        ≡ unknown_of known.now.entries catalog.now below (references select.now) }
    ensures below { IfSome result (λ id. id < below) }
    ensures waits { IfSome result (λ id. IsWaiting known.now.entries catalog.now.items id) }
{
    match unknown_named(known, catalog, below, &select.first.name) {
        Some(id) => Some(id),
        None => unknown_joined(known, catalog, below, select.joins.as_slice()),
    }
}

/// The number of the first item that one of these selects names, among those whose numbers are below this one, and
/// that isn't known. Takes no memory. Time follows the references.
pub fn unknown_in(known: &Known, catalog: &Catalog, below: u64, selects: &[Select]) -> Option<u64>
    ensures first { result ≡ unknown_in known.now.entries catalog.now below selects.now }
    ensures below { IfSome result (λ id. id < below) }
    ensures waits { IfSome result (λ id. IsWaiting known.now.entries catalog.now.items id) }
{
    'selects: for select in selects {
        if let Some(id) = unknown_of(known, catalog, below, select) {
            return Some(id);
        }
    }
    None
}
