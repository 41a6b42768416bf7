//! Why tokens were not read.
ghost use Rattle.std.specs.Prelude.{◌≡◌};
ghost use Rattle.mz_parse.specs.declared.fault.ReadError.TheVariants.{Memory};

use std::alloc::{AllocError, AllocFailed};

/// A fault, with the number of tokens that are left at it.
#[derive(Clone, Copy, Debug, PartialEq, Eq)]
pub enum Fault {
    /// The token can't go on a statement.
    Syntax(u64),
    /// The literal is out of range.
    Range(u64),
}

/// Why the tokens were not read.
#[derive(Clone, Copy, Debug, PartialEq, Eq)]
pub enum ReadError {
    /// Memory ran out.
    Memory,
    /// They are no statement.
    Fault(Fault),
}

impl From<AllocError> for ReadError {
    ghost from_gives = { λ _ e. e ≡ Memory };

    fn from(_e: AllocError) -> ReadError {
        ReadError::Memory
    }
}

impl<T: Drop> From<AllocFailed<T>> for ReadError {
    ghost from_gives = { λ _ e. e ≡ Memory };

    fn from(_e: AllocFailed<T>) -> ReadError {
        ReadError::Memory
    }
}
