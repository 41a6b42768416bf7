//! Why an item is not added or not removed.

use mz_value::Name;
use std::alloc::{AllocError, AllocFailed};
use thiserror::Error;

/// Why an item was not added or not removed. The catalog is as before.
#[derive(Debug, Drop, Error)]
pub enum CatalogFault {
    /// An item has this name already.
    #[error("the name {name} is taken")]
    NameTaken { name: Name },
    /// There are as many items as there may be.
    #[error("there are {limit} items")]
    TooMany { limit: u64 },
    /// This item depends on the one that was to go. It is the first such in order of creation.
    #[error("{name} depends on it")]
    HasDependents { name: Name },
    /// Memory ran out.
    #[error("out of memory")]
    Memory,
}

impl From<AllocError> for CatalogFault {
    ghost use Rattle.std.specs.Prelude.{◌≡◌};
    ghost use Rattle.mz_catalog.specs.declared.fault.CatalogFault.TheVariants.{Memory};

    ghost from_gives = { λ _ fault. fault ≡ Memory };

    fn from(_: AllocError) -> CatalogFault {
        CatalogFault::Memory
    }
}

impl<T: Drop> From<AllocFailed<T>> for CatalogFault {
    ghost use Rattle.std.specs.Prelude.{◌≡◌};
    ghost use Rattle.mz_catalog.specs.declared.fault.CatalogFault.TheVariants.{Memory};

    ghost from_gives = { λ _ fault. fault ≡ Memory };

    fn from(_: AllocFailed<T>) -> CatalogFault {
        CatalogFault::Memory
    }
}
