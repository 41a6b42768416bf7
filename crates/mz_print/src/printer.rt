//! The printer.
ghost use Rattle.std.specs.Prelude.{◌≡◌, IfOk};
ghost use Rattle.mz_statement.specs.Statement.{IsStatement};
ghost use Rattle.mz_grammar.specs.Grammar.{IsSpelling};
ghost use Rattle.mz_print.specs.Print.{print_of};

use crate::statement::print_statement;
use crate::writer::Writer;
use mz_statement::Statement;
use mz_value::Text;
use std::alloc::{AllocError, Global};

/// The text of the statement, which is read again as the statement.
///
/// The time grows with the text, and so does the memory. The recursion is as deep as a condition.
/// An `Err` leaves nothing.
#[tactic(auto, using(crate::proofs::ReadAgain::reads_equal))]
pub fn print(alloc: Global, statement: &Statement) -> Result<Text, AllocError>
    ensures text { IfOk result (λ text. text ≡ print_of statement.now) }

    // Read again, the text is the statement.
    ensures reads { IfOk result (λ text. IsStatement statement.now
        → IsSpelling text statement.now) }
{
    let mut out = Writer::new(alloc);
    print_statement(&mut out, statement)?;
    Ok(Text::from_string(out.into_string()))
}
