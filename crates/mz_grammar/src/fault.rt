//! Why a text is no statement.

use std::alloc::AllocError;
use thiserror::Error;

/// Why a text is no statement.
#[derive(Clone, Copy, Debug, PartialEq, Eq, Error)]
pub enum ParseFault {
    /// The token at this place can't go on a statement, or the text ends there too early.
    /// Places count bytes from 0.
    #[error("syntax at {at}")]
    Syntax { at: u64 },
    /// The literal at this place is out of its range.
    #[error("literal out of range at {at}")]
    LiteralRange { at: u64 },
    /// Memory ran out.
    #[error("out of memory")]
    Memory,
}

impl From<AllocError> for ParseFault {
    ghost use Rattle.std.specs.Prelude.{◌≡◌};
    ghost use Rattle.mz_grammar.specs.declared.fault.ParseFault.TheVariants as fault;

    ghost from_gives = { λ _ e. e ≡ fault.Memory };

    fn from(_e: AllocError) -> ParseFault {
        ParseFault::Memory
    }
}
