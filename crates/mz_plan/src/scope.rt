//! What a statement may name.
ghost use Rattle.std.specs.Prelude.{◌≡◌, IfOk};

use crate::CatalogItems;
use std::alloc::{AllocError, Global};

/// The items that a statement may name, and the cluster whose indexes it may use.
#[derive(Drop)]
pub struct Scope {
    /// The items, in order of creation.
    pub items: CatalogItems,
    /// The cluster.
    pub cluster: u64,
}

impl Scope {
    /// The scope with another cluster. Takes no memory.
    pub fn in_cluster(self, cluster: u64) -> Scope
        ensures items { result.items ≡ self.items }
        ensures cluster { result.cluster ≡ cluster }
    {
        Scope {
            items: self.items,
            cluster,
        }
    }

    /// A copy of the scope.
    pub fn try_copy(&self, alloc: Global) -> Result<Scope, AllocError>
        ensures { IfOk result (λ copy. copy ≡ self.now) }
    {
        Ok(Scope {
            items: self.items.try_copy(alloc)?,
            cluster: self.cluster,
        })
    }
}
