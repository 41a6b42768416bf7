//! Items under their names, in order of creation.
ghost use Rattle.std.specs.Prelude.{◌≡◌, ◌==◌, ◌&&◌, ◌∷◌, ◌++◌, ◌<◌, ◌⊎◌, [], None, is_some, remove, slice_get, find, option_map, bytes_eq, IfOk, OnOk, IfErr, OnErr, IsSome};
ghost use Rattle.indexmap.specs.IndexMap.{get, values, index_map_len};
ghost use Rattle.mz_plan.specs.Items.{is_on, named, numbered, oldest_index, others, Ascend, depends, dependents, dependents_on};
ghost use Rattle.mz_catalog.specs.CatalogState.{refusal, IsCause};
ghost use Rattle.mz_catalog.specs.declared.fault.CatalogFault.TheVariants.{NameTaken, Memory};
ghost use Rattle.mz_catalog.specs.Dependents.{IsHeldBack, Tells};
ghost use Rattle.mz_catalog.specs.Keyed.{AreKeyed};

use crate::CatalogFault;
use crate::dependents::{depends, is_index};
use indexmap::IndexMap;
use mz_plan::{Item, ItemKind};
use mz_value::{Name, TryCopy};
use std::alloc::{AllocError, Global};

/// How many items there may be.
pub const MOST_ITEMS: usize = 1024;

/// The number of the item of this name. O(1) expected.
#[tactic(auto, using(crate::proofs::ItemLemmas::lookup_named))]
pub fn id_of(items: &IndexMap<Name, Item>, name: &Name) -> Option<u64>
    requires { AreKeyed items.now.entries }
    ensures { result ≡ option_map (λ item. item.id) (named name.now (values items.now)) }
{
    match items.get(name) {
        Some(item) => Some(item.id),
        None => None,
    }
}

/// The place of the item of this number. O(log n), where there are n items.
pub fn place_of(items: &IndexMap<Name, Item>, id: u64) -> usize
    requires there { IsSome (numbered id (values items.now)) }
    requires ascending { Ascend (values items.now) }
    ensures place { slice_get (values items.now) result ≡ numbered id (values items.now) }
    ensures within { result < index_map_len items.now }
{
    match items.binary_search_by_key(&id, |_, item| item.id) {
        Ok(place) => place,
        Err(_) => unreachable!(),
    }
}

/// Whether there is an item of this number. O(log n), where there are n items.
pub fn is_there(items: &IndexMap<Name, Item>, id: u64) -> bool
    requires { Ascend (values items.now) }
    ensures { result ≡ is_some (numbered id (values items.now)) }
{
    match items.binary_search_by_key(&id, |_, item| item.id) {
        Ok(_) => true,
        Err(_) => false,
    }
}

// Whether what is of this kind is an index on the item of this number.
fn is_on(on: u64, kind: &ItemKind) -> bool
    ensures { result ≡ is_on on kind.now }
{
    match kind {
        ItemKind::Index(relation, _) => *relation == on,
        _ => false,
    }
}

// Whether the item is an index on the item of this number, in this cluster.
fn is_index_on(item: &Item, on: u64, cluster: u64) -> bool
    ensures { result ≡ (item.now.cluster == cluster && is_on on item.now.kind) }
{
    item.cluster == cluster && is_on(on, &item.kind)
}

/// The number of the oldest index on the item of this number that is in this cluster. O(n), where there are n
/// items.
pub fn oldest_index(items: &IndexMap<Name, Item>, on: u64, cluster: u64) -> Option<u64>
    ensures { result ≡ oldest_index (values items.now) cluster on }
{
    'items: for item in items.values() {
        if is_index_on(item, on, cluster) {
            return Some(item.id);
        }
    }
    None
}

// Whether an item has this name. O(1) expected.
#[tactic(auto, using(crate::proofs::ItemLemmas::lookup_named))]
fn is_taken(items: &IndexMap<Name, Item>, name: &Name) -> bool
    requires { AreKeyed items.now.entries }
    ensures { result ≡ is_some (named name.now (values items.now)) }
{
    items.contains_key(name)
}

// That the name is taken, where there is memory to say so.
fn name_taken(alloc: Global, name: &Name) -> CatalogFault
    ensures { (result ≡ NameTaken name.now) ⊎ (result ≡ Memory) }
{
    match name.try_copy(alloc) {
        Ok(name) => CatalogFault::NameTaken { name },
        Err(_) => CatalogFault::Memory,
    }
}

/// Whether an item of this name can be added. O(1) expected.
pub fn check_new(items: &IndexMap<Name, Item>, name: &Name) -> Result<(), CatalogFault>
    requires { AreKeyed items.now.entries }
    ensures free { OnOk result (refusal (values items.now) name.now ≡ None) }
    ensures cause { IfErr result (λ fault. IsCause fault (refusal (values items.now) name.now)) }
{
    if is_taken(items, name) {
        return Err(name_taken(*items.allocator(), name));
    }
    if items.len() >= MOST_ITEMS {
        return Err(CatalogFault::TooMany {
            limit: MOST_ITEMS as u64,
        });
    }
    Ok(())
}

/// Puts an item under a new name last. O(1) expected.
pub fn push(items: &mut IndexMap<Name, Item>, name: Name, item: Item) -> Result<(), AllocError>
    requires { get bytes_eq items.old name ≡ None }
    ensures ok { OnOk result (items.new.entries ≡ items.old.entries ++ (name, item) ∷ []) }
    ensures err { OnErr result (items.new.entries ≡ items.old.entries) }
{
    drop(items.insert(name, item)?);
    Ok(())
}

/// Puts an item last. O(1) expected.
pub fn put(items: &mut IndexMap<Name, Item>, item: Item) -> Result<(), CatalogFault>
    requires { AreKeyed items.old.entries }
    ensures ok { OnOk result (items.new.entries ≡ items.old.entries ++ (item.name, item) ∷ []) }
    ensures free { OnOk result (refusal (values items.old) item.name ≡ None) }
    ensures err { OnErr result (items.new.entries ≡ items.old.entries) }
    ensures cause { IfErr result (λ fault. IsCause fault (refusal (values items.old) item.name)) }
{
    check_new(items, &item.name)?;
    let name = item.name.try_copy(*items.allocator())?;
    push(items, name, item)?;
    Ok(())
}

// The first item that depends on the table or view.
fn first_dependent<'a>(items: &'a IndexMap<Name, Item>, on: &Item) -> Option<&'a Item>
    ensures { option_map (λ item. item.now) result
        ≡ find (λ item. depends item.kind on.now) (values items.now) }
{
    'items: for item in items.values() {
        if depends(&item.kind, on) {
            return Some(item);
        }
    }
    None
}

// The name of the dependent, where there is memory to tell it.
fn told(alloc: Global, dependent: &Item) -> CatalogFault
    ensures { Tells result dependent.now }
{
    match dependent.name.try_copy(alloc) {
        Ok(name) => CatalogFault::HasDependents { name },
        Err(_) => CatalogFault::Memory,
    }
}

/// Whether no item depends on this one: the error tells the first. O(n), where there are n items.
pub fn check_free(items: &IndexMap<Name, Item>, on: &Item) -> Result<(), CatalogFault>
    ensures free { OnOk result (dependents_on on.now (values items.now) ≡ []) }
    ensures cause { IfErr result
        (λ fault. IsHeldBack fault (dependents_on on.now (values items.now))) }
{
    if is_index(&on.kind) {
        return Ok(());
    }
    match first_dependent(items, on) {
        Some(dependent) => Err(told(*items.allocator(), dependent)),
        None => Ok(()),
    }
}

// Takes out the entry at the place. The others stay in their order.
fn remove_at(items: &mut IndexMap<Name, Item>, place: usize)
    ensures { items.new.entries ≡ remove items.old.entries place }
{
    drop(items.shift_remove_index(place));
}

/// Takes out the item of this number. O(n), where there are n items.
pub fn take_out(items: &mut IndexMap<Name, Item>, id: u64) -> Result<(), CatalogFault>
    requires there { IsSome (numbered id (values items.old)) }
    requires ascending { Ascend (values items.old) }
    requires keyed { AreKeyed items.old.entries }
    ensures ok { OnOk result (values items.new ≡ others id (values items.old)) }
    ensures free { OnOk result (dependents id (values items.old) ≡ []) }
    ensures err { OnErr result (items.new.entries ≡ items.old.entries) }
    ensures cause { IfErr result (λ fault. IsHeldBack fault (dependents id (values items.old))) }
    ensures keyed { AreKeyed items.new.entries }
{
    let place = place_of(items, id);
    check_free(items, &items[place])?;
    remove_at(items, place);
    Ok(())
}

/// A copy of the items under their names. O(n), where there are n items.
pub fn copied(items: &IndexMap<Name, Item>) -> Result<IndexMap<Name, Item>, AllocError>
    ensures { IfOk result (λ copy. copy.entries ≡ items.now.entries) }
{
    let alloc = *items.allocator();
    let mut copy = IndexMap::with_capacity(alloc, items.len())?;
    'entries: for (name, item) in items.iter() {
        push(&mut copy, name.try_copy(alloc)?, item.try_copy(alloc)?)?;
    }
    Ok(copy)
}

/// A copy of the items alone. O(n), where there are n items.
pub fn copied_items(items: &IndexMap<Name, Item>) -> Result<Vec<Item>, AllocError>
    ensures { IfOk result (λ copy. copy.items ≡ values items.now) }
{
    let alloc = *items.allocator();
    let mut copy = Vec::with_capacity(alloc, items.len())?;
    'items: for item in items.values() {
        copy.push(item.try_copy(alloc)?)?;
    }
    Ok(copy)
}
