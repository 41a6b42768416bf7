//! Why a call isn't carried out.
ghost use Rattle.std.specs.Prelude.{Some};
ghost use Rattle.mz_refusal.specs.Refusal.{fault_text};

use crate::Refusal;
use std::alloc::{AllocError, AllocFailed};
use std::fmt;
use thiserror::Error;

/// Why a call isn't carried out. A refusal is written with its number before its text.
#[derive(Debug, Drop, Error)]
pub enum CallFault {
    /// The call is refused.
    Refused(Refusal),
    /// Memory ran out.
    Memory,
}

impl fmt::Display for CallFault {
    ghost output = { λ w. Some (fault_text w) };

    fn fmt<W: fmt::Write>(&self, f: &mut fmt::Formatter<W>) -> fmt::Result {
        match self {
            CallFault::Refused(refusal) => write!(f, "refused {}{refusal}", refusal.number()),
            CallFault::Memory => f.write_str("out of memory"),
        }
    }
}

impl From<Refusal> for CallFault {
    ghost use Rattle.std.specs.Prelude.{◌≡◌};
    ghost use Rattle.mz_refusal.specs.declared.fault.CallFault.TheVariants.{Refused};

    ghost from_gives = { λ refusal fault. fault ≡ Refused refusal };

    fn from(refusal: Refusal) -> CallFault {
        CallFault::Refused(refusal)
    }
}

impl From<AllocError> for CallFault {
    ghost use Rattle.std.specs.Prelude.{◌≡◌};
    ghost use Rattle.mz_refusal.specs.declared.fault.CallFault.TheVariants.{Memory};

    ghost from_gives = { λ _ fault. fault ≡ Memory };

    fn from(_: AllocError) -> CallFault {
        CallFault::Memory
    }
}

impl<T: Drop> From<AllocFailed<T>> for CallFault {
    ghost use Rattle.std.specs.Prelude.{◌≡◌};
    ghost use Rattle.mz_refusal.specs.declared.fault.CallFault.TheVariants.{Memory};

    ghost from_gives = { λ _ fault. fault ≡ Memory };

    fn from(_: AllocFailed<T>) -> CallFault {
        CallFault::Memory
    }
}
