//! Why a text has no tokens.

use std::alloc::AllocFailed;
use thiserror::Error;

/// Why a text was not cut into tokens.
#[derive(Clone, Copy, Debug, PartialEq, Eq, Error)]
pub enum LexFault {
    /// No token begins at this place, the first such of the text. It counts bytes from 0.
    #[error("no token at {at}")]
    Bad { at: u64 },
    /// Memory ran out.
    #[error("out of memory")]
    Memory,
}

impl<T: Drop> From<AllocFailed<T>> for LexFault {
    ghost use Rattle.std.specs.Prelude.{◌≡◌};
    ghost use Rattle.mz_lex.specs.declared.fault.LexFault.TheVariants.{Memory};

    ghost from_gives = { λ _ fault. fault ≡ Memory };

    fn from(_: AllocFailed<T>) -> LexFault {
        LexFault::Memory
    }
}
