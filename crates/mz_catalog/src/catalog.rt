//! The catalog of items.
ghost use Rattle.std.specs.Prelude.{◌≡◌, ◌+◌, [], None, Some, option_map, is_some, IfOk, OnOk, IfErr, OnErr, IsSome, IfSome};
ghost use Rattle.mz_plan.specs.Items.{named, numbered, oldest_index, dependents};
ghost use Rattle.mz_catalog.specs.CatalogState.{empty, with_item, without, refusal, IsCatalog, IsCause};
ghost use Rattle.mz_catalog.specs.Dependents.{IsHeldBack};
ghost use Rattle.mz_catalog.specs.declared.fault.CatalogFault.TheVariants.{Memory};

use crate::CatalogFault;
use crate::entries::{copied, copied_items, id_of, is_there, place_of, put, take_out};
use crate::oldest::{copied_oldest, index_place, kept_at, make_room, note, renew};
use indexmap::IndexMap;
use mz_plan::{CatalogItems, Item, Scope};
use mz_value::Name;
use std::alloc::{AllocError, Global};
use std::marker::Model;

/// The tables, views and indexes that there are, in order of creation. Memory follows the items.
#[derive(Drop)]
pub struct Catalog {
    // Each item under its name, in order of creation.
    items: IndexMap<Name, Item>,
    // The number of the oldest index on each item in each cluster.
    oldest: IndexMap<(u64, u64), u64>,
    // The number that the next item gets.
    next: u64,
}

// The number after this one. All are used behind the last one.
fn following(id: u64) -> Result<u64, CatalogFault>
    ensures ok { IfOk result (λ next. next ≡ id + 1) }
    ensures err { IfErr result (λ fault. fault ≡ Memory) }
{
    match id.checked_add(1) {
        Some(next) => Ok(next),
        None => Err(CatalogFault::Memory),
    }
}

impl Model for Catalog {
    ghost use Rattle.mz_plan.specs.contracts.item.Item as the_item;
    ghost use Rattle.mz_catalog.specs.CatalogState.{CatalogState, state_code};
    ghost use Rattle.mz_catalog.specs.Keyed.{state_of, IsKept};

    ghost Value = { CatalogState };

    ghost coded = { state_code the_item.the_row.coded };

    ghost view = { λ c. state_of c.items.entries c.next };

    ghost invariant = { λ c. IsKept c.items.entries c.oldest.entries c.next };
}

impl Catalog {
    /// The catalog with no items. Takes no memory until the first one is added.
    pub fn empty(alloc: Global) -> Catalog
        ensures { result ≡ empty }
    {
        Catalog {
            items: IndexMap::new(alloc),
            oldest: IndexMap::new(alloc),
            next: 1,
        }
    }

    /// Adds an item last, whatever number it had, and gives the number that it has now. O(1) expected. Where all
    /// numbers are used, it answers that memory ran out.
    pub fn add(&mut self, mut item: Item) -> Result<u64, CatalogFault>
        ensures id { IfOk result (λ id. id ≡ self.old.next) }
        ensures ok { OnOk result (self.new ≡ with_item self.old item) }
        ensures free { OnOk result (refusal self.old.items item.name ≡ None) }
        // On failure the catalog is as before.
        ensures err { OnErr result (self.new ≡ self.old) }
        ensures cause { IfErr result (λ fault. IsCause fault (refusal self.old.items item.name)) }
    {
        let id = self.next;
        let next = following(id)?;
        item.id = id;
        let place = index_place(&item);
        make_room(&mut self.oldest)?;
        put(&mut self.items, item)?;
        note(&mut self.oldest, place, id);
        self.next = next;
        Ok(id)
    }

    /// Removes the item of this number, on which nothing may depend. O(n), where there are n items.
    pub fn remove(&mut self, id: u64) -> Result<(), CatalogFault>
        requires { IsSome (numbered id self.old.items) }
        ensures ok { OnOk result (self.new ≡ without self.old id) }
        ensures free { OnOk result (dependents id self.old.items ≡ []) }
        // On failure the catalog is as before.
        ensures err { OnErr result (self.new ≡ self.old) }
        ensures cause { IfErr result (λ fault. IsHeldBack fault (dependents id self.old.items)) }
    {
        let place = index_place(self.item(id));
        take_out(&mut self.items, id)?;
        renew(&mut self.oldest, place, &self.items);
        Ok(())
    }

    /// The number of the item of this name, None where there is none. Takes no memory. O(1) expected.
    pub fn find(&self, name: &Name) -> Option<u64>
        ensures id { result ≡ option_map (λ item. item.id) (named name.now self.now.items) }
        ensures there { IfSome result (λ id. IsSome (numbered id self.now.items)) }
        ensures catalog { IsCatalog self.now }
    {
        id_of(&self.items, name)
    }

    /// Whether there is an item of this number. Takes no memory. O(log n), where there are n items.
    pub fn contains(&self, id: u64) -> bool
        ensures { result ≡ is_some (numbered id self.now.items) }
    {
        is_there(&self.items, id)
    }

    /// The item of this number. Takes no memory. O(log n), where there are n items.
    pub fn item(&self, id: u64) -> &Item
        requires { IsSome (numbered id self.now.items) }
        ensures item { numbered id self.now.items ≡ Some result.now }
        ensures catalog { IsCatalog self.now }
    {
        let place = place_of(&self.items, id);
        &self.items[place]
    }

    /// The number of the oldest index on the item `on` that is in this cluster, None where there is none. Takes no
    /// memory. O(1) expected.
    pub fn oldest_index(&self, on: u64, cluster: u64) -> Option<u64>
        ensures { result ≡ oldest_index self.now.items cluster on }
    {
        kept_at(&self.oldest, on, cluster)
    }

    /// The number that the next item gets, above those of all items. Takes no memory.
    pub fn next(&self) -> u64
        ensures next { result ≡ self.now.next }
        ensures catalog { IsCatalog self.now }
    {
        self.next
    }

    /// A copy of the catalog. O(n), where there are n items.
    pub fn try_copy(&self) -> Result<Catalog, AllocError>
        ensures { IfOk result (λ copy. copy ≡ self.now) }
    {
        Ok(Catalog {
            items: copied(&self.items)?,
            oldest: copied_oldest(&self.oldest)?,
            next: self.next,
        })
    }

    /// What a statement may name: the items, and cluster 0. O(n), where there are n items.
    pub fn scope(&self) -> Result<Scope, AllocError>
        ensures items { IfOk result (λ scope. scope.items ≡ self.now.items) }
        ensures cluster { IfOk result (λ scope. scope.cluster ≡ 0) }
        ensures catalog { IsCatalog self.now }
    {
        Ok(Scope {
            items: CatalogItems::from_vec(copied_items(&self.items)?),
            cluster: 0,
        })
    }
}
