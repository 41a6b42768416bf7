//! The items of a catalog: tables, views and indexes.
ghost use Rattle.std.specs.Prelude.{◌≡◌, IfOk};

use crate::Plan;
use mz_statement::{Columns, Statement};
use mz_value::{Listed, Name, TryCopy};
use std::alloc::{AllocError, Global};

/// What an item is.
#[derive(Drop)]
pub enum ItemKind {
    /// A table with these columns.
    Table(Columns),
    /// A view with these columns, and the query that it stands for.
    View(Columns, Statement),
    /// An index on the item of this number, and the plan that it was made with.
    Index(u64, Plan),
}

impl ItemKind {
    /// A copy of the kind.
    pub fn try_copy(&self, alloc: Global) -> Result<ItemKind, AllocError>
        ensures { IfOk result (λ copy. copy ≡ self.now) }
    {
        Ok(match self {
            ItemKind::Table(columns) => ItemKind::Table(columns.try_copy(alloc)?),
            ItemKind::View(columns, query) => {
                ItemKind::View(columns.try_copy(alloc)?, query.try_copy(alloc)?)
            }
            ItemKind::Index(on, plan) => ItemKind::Index(*on, plan.try_copy(alloc)?),
        })
    }
}

/// A table, a view or an index. Items are numbered in order of creation, and no number is used again.
#[derive(Drop)]
pub struct Item {
    /// Its number.
    pub id: u64,
    /// What it is called.
    pub name: Name,
    /// The cluster that it belongs to.
    pub cluster: u64,
    /// What it is.
    pub kind: ItemKind,
}

impl TryCopy for Item {
    fn try_copy(&self, alloc: Global) -> Result<Item, AllocError> {
        Ok(Item {
            id: self.id,
            name: self.name.try_copy(alloc)?,
            cluster: self.cluster,
            kind: self.kind.try_copy(alloc)?,
        })
    }
}

/// The items of a catalog, in order of creation.
pub type CatalogItems = Listed<Item>;
