//! What a text asks for.
ghost use Rattle.std.specs.Prelude.{◌≡◌, IfOk};
ghost use Rattle.mz_sql.specs.Asked.{asked};

use mz_grammar::Asked;
use mz_parse::{ParseFault, parse};
use mz_value::Text;
use std::alloc::{AllocError, Global};

/// What the text asks for: its statement, or the refusal of a text that spells none.
///
/// The time grows with the text. Names and texts are copied once. An `Err` leaves nothing.
pub fn ask(alloc: Global, text: &Text) -> Result<Asked, AllocError>
    ensures { IfOk result (λ asks. asks ≡ asked text.now) }
{
    match parse(alloc, text) {
        Ok(statement) => Ok(Asked::Statement(statement)),
        Err(ParseFault::Syntax { at }) => Ok(Asked::Syntax(at)),
        Err(ParseFault::LiteralRange { at }) => Ok(Asked::LiteralRange(at)),
        Err(ParseFault::Memory) => Err(AllocError),
    }
}
