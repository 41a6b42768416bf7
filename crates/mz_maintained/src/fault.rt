//! Why a change isn't carried through.

use std::alloc::AllocError;
use thiserror::Error;

/// Why a change isn't carried through.
#[derive(Clone, Copy, Debug, PartialEq, Eq, Drop, Error)]
pub enum ChangeFault {
    /// The plan's rows are known up to a later time already, or the time is the last of all. All is as before.
    #[error("the time is past")]
    Past,
    /// A table would have more rows than it may, or a change of too many came. From then on each change wants memory.
    #[error("table {table} is full")]
    Full { table: u64 },
    /// Memory ran out, now or in an earlier change.
    #[error("out of memory")]
    Memory,
}

impl From<AllocError> for ChangeFault {
    ghost use Rattle.std.specs.Prelude.{◌≡◌};
    ghost use Rattle.mz_maintained.specs.declared.fault.ChangeFault.TheVariants.{Memory};

    ghost from_gives = { λ _ fault. fault ≡ Memory };

    fn from(_: AllocError) -> ChangeFault {
        ChangeFault::Memory
    }
}
