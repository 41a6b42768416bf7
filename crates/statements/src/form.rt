//! Statements in their one form.

use mz_sql::{ParseFault, normalized};
use mz_value::Text;
use std::alloc::{AllocError, Global};

/// What is printed of the line: its form, or its refusal.
pub fn form_of(alloc: Global, line: &Text) -> Result<String, AllocError> {
    match normalized(alloc, line) {
        Ok(form) => Ok(form.into_string()),
        Err(ParseFault::Syntax { at }) => format!(in alloc; "refused 1: at {at}"),
        Err(ParseFault::LiteralRange { at }) => format!(in alloc; "refused 6: at {at}"),
        Err(ParseFault::Memory) => Err(AllocError),
    }
}
