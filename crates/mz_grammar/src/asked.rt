//! What a text asks for.

use mz_statement::Statement;

/// What a text asks for: a statement, or one of the two refusals of a text that is none.
#[derive(Drop)]
pub enum Asked {
    /// The text spells the statement.
    Statement(Statement),
    /// Refusal 1: the token at this place can't go on a statement, or the text ends there too early.
    /// Places count bytes from 0.
    Syntax(u64),
    /// Refusal 6: the literal at this place is out of its range.
    LiteralRange(u64),
}
