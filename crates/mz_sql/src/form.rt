//! Texts in their one form.
ghost use Rattle.std.specs.Prelude.{◌≡◌, ◌≢◌, IfOk, IfErr};
ghost use Rattle.mz_statement.specs.declared.statement.Statement.{Statement};
ghost use Rattle.mz_statement.specs.Statement.{IsStatement};
ghost use Rattle.mz_grammar.specs.Grammar.{IsSpelling};
ghost use Rattle.mz_grammar.specs.Faults.{IsParseFault};
ghost use Rattle.mz_grammar.specs.declared.fault.ParseFault.{ParseFault};
ghost use Rattle.mz_print.specs.Print.{print_of};
ghost use Rattle.mz_sql.specs.Form.{HasForm};

use mz_grammar::laws::spelled_is_statement;
use mz_parse::{ParseFault, parse};
use mz_print::print;
use mz_statement::Statement;
use mz_value::Text;
use std::alloc::Global;

// The printed text of the statement, which is let go.
fn form_of(alloc: Global, statement: Statement) -> Result<Text, ParseFault>
    ensures form { IfOk result (λ form. form ≡ print_of statement) }
    ensures reads { IfOk result (λ form. IsStatement statement → IsSpelling form statement) }
    ensures fault { IfErr result (λ fault. fault ≡ ParseFault.Memory) }
{
    match print(alloc, &statement) {
        Ok(form) => Ok(form),
        Err(_) => Err(ParseFault::Memory),
    }
}

/// The text in its one form: the printed text of the statement that it spells.
///
/// The time grows with the text. An `Err` is the fault that `parse` finds, and leaves nothing.
pub fn normalized(alloc: Global, text: &Text) -> Result<Text, ParseFault>
    // The form spells what the text spells.
    ensures form { IfOk result (λ form. HasForm text.now form) }

    // Unless memory runs out, a text that spells a statement has its form.
    ensures only { (statement : Statement) → IsSpelling text.now statement
        → result ≢ Err ParseFault.Memory → result ≡ Ok (print_of statement) }

    // Any other text is refused with its fault.
    ensures fault { IfErr result (λ fault. IsParseFault text.now fault) }

    // Unless memory runs out, a text that has a fault is refused with this one.
    ensures place { (fault : ParseFault) → IsParseFault text.now fault
        → fault ≢ ParseFault.Memory → result ≢ Err ParseFault.Memory → result ≡ Err fault }
{
    spelled_is_statement();
    match parse(alloc, text) {
        Ok(statement) => form_of(alloc, statement),
        Err(fault) => Err(fault),
    }
}
