//! The catalog under a mark.
ghost use Rattle.std.specs.Prelude.{◌≡◌, Some, unwrap_or, IfOk, OnOk, OnErr, IsSome};
ghost use Rattle.mz_plan.specs.Items.{numbered, dependents};
ghost use Rattle.mz_catalog.specs.CatalogState.{IsCatalog};
ghost use Rattle.mz_log.specs.CarriedOut.{held_back, unmakable};
ghost use Rattle.mz_seq.specs.Told.{IsMade, IsRemoved};

use crate::{make, remove};
use mz_catalog::Catalog;
use mz_log::SeqReply;
use mz_plan::Item;
use mz_statement::Column;
use std::alloc::{AllocError, Global};
use std::marker::Model;

/// The catalog as it is, and as it was at a mark.
#[derive(Drop)]
pub struct MarkedCatalog {
    // As it is.
    catalog: Catalog,
    // As it was at the mark, where it may have changed since.
    saved: Option<Catalog>,
}

// Keeps a copy of the catalog as it was at the mark, unless there is one. O(n), where there are n items.
fn save(saved: &mut Option<Catalog>, catalog: &Catalog) -> Result<(), AllocError>
    ensures ok { OnOk result (saved.new ≡ Some (unwrap_or saved.old catalog.now)) }
    ensures err { OnErr result (saved.new ≡ saved.old) }
{
    if saved.is_none() {
        *saved = Some(catalog.try_copy()?);
    }
    Ok(())
}

impl Model for MarkedCatalog {
    ghost use Rattle.std.specs.Prelude.{unwrap_or};
    ghost use Rattle.mz_plan.specs.contracts.item.Item as the_item;
    ghost use Rattle.mz_catalog.specs.CatalogState.{CatalogState, state_code};
    ghost use Rattle.mz_marked.specs.Twice.{Twice, twice_code};

    ghost Value = { Twice CatalogState };

    ghost coded = { twice_code (state_code the_item.the_row.coded) };

    ghost view = { λ c. record { present = c.catalog; marked = unwrap_or c.saved c.catalog } };
}

impl MarkedCatalog {
    /// A catalog that is marked as it is. Takes no memory.
    pub fn marked(catalog: Catalog) -> MarkedCatalog
        ensures present { result.present ≡ catalog }
        ensures marked { result.marked ≡ catalog }
    {
        MarkedCatalog {
            catalog,
            saved: None,
        }
    }

    /// The catalog as it is. Takes no memory.
    pub fn catalog(&self) -> &Catalog
        ensures now { result.now ≡ self.now.present }
        ensures catalog { IsCatalog self.now.present }
    {
        let _next = self.catalog.next();
        &self.catalog
    }

    /// Makes an item with these columns, unless it is refused. After an `Err` the catalog is as before. O(1) expected, and
    /// one copy of the catalog in the first change since the mark.
    pub fn make(
        &mut self,
        alloc: Global,
        columns: &[Column],
        item: Item,
    ) -> Result<SeqReply, AllocError>
        ensures made { IfOk result
            (λ reply. IsMade (unmakable self.old.present.items item.name columns.now) item
            self.old.present self.new.present reply) }
        ensures err { OnErr result (self.new.present ≡ self.old.present) }
        ensures marked { self.new.marked ≡ self.old.marked }
    {
        save(&mut self.saved, &self.catalog)?;
        make(alloc, &mut self.catalog, columns, item)
    }

    /// Removes the item of this number, unless something depends on it. After an `Err` the catalog is as before. O(n),
    /// where there are n items.
    pub fn remove(&mut self, id: u64) -> Result<SeqReply, AllocError>
        requires { IsSome (numbered id self.old.present.items) }
        ensures removed { IfOk result
            (λ reply. IsRemoved (held_back (dependents id self.old.present.items)) id
            self.old.present self.new.present reply) }
        ensures err { OnErr result (self.new.present ≡ self.old.present) }
        ensures marked { self.new.marked ≡ self.old.marked }
    {
        save(&mut self.saved, &self.catalog)?;
        remove(&mut self.catalog, id)
    }

    /// Sets the mark: the catalog of now can be gone back to. Takes no memory.
    pub fn mark(&mut self)
        ensures present { self.new.present ≡ self.old.present }
        ensures marked { self.new.marked ≡ self.old.present }
        ensures catalog { IsCatalog self.old.present }
    {
        let _next = self.catalog.next();
        self.saved = None;
    }

    /// Goes back to the catalog of the mark. Takes no memory.
    pub fn back(&mut self)
        ensures present { self.new.present ≡ self.old.marked }
        ensures marked { self.new.marked ≡ self.old.marked }
        ensures catalog { IsCatalog self.new.present }
    {
        if let Some(saved) = self.saved.take() {
            self.catalog = saved;
        }
        let _next = self.catalog.next();
    }
}
