//! Rows and their changes as they are printed.

use mz_print::push_quoted;
use mz_time::Time;
use mz_updates::Update;
use mz_value::{Datum, Row};
use std::alloc::{AllocError, Global};

// Writes a value; a text stands in quotes, and a quote inside is doubled.
fn push_value(text: &mut String, value: &Datum) -> Result<(), AllocError> {
    match value {
        Datum::Int(number) => write!(text, "{number}"),
        Datum::Text(letters) => push_quoted(text, letters.as_str()),
        Datum::Bool(true) => text.push_str("TRUE"),
        Datum::Bool(false) => text.push_str("FALSE"),
        Datum::Wide(number) => write!(text, "{number}"),
    }
}

// Writes a row in parentheses.
fn push_row(text: &mut String, row: &Row) -> Result<(), AllocError> {
    let mut between = "";
    text.push_str("(")?;
    'values: for value in row.as_slice() {
        text.push_str(between)?;
        push_value(text, value)?;
        between = ", ";
    }
    text.push_str(")")
}

// Writes by how much a row's count changes, with its sign, and the row, as a line of its own.
fn push_change(text: &mut String, update: &Update) -> Result<(), AllocError> {
    let sign = if update.diff > 0 { "+" } else { "" };
    let diff = update.diff;
    write!(text, "\n  {sign}{diff} ")?;
    push_row(text, &update.row)
}

/// How many rows change at a time, and then a line for each change.
pub fn changes_text(alloc: Global, time: Time, changes: &[Update]) -> Result<String, AllocError> {
    let count = changes.len();
    let mut text = format!(in alloc; "at {time}: {count} changes")?;
    'changes: for update in changes {
        push_change(&mut text, update)?;
    }
    Ok(text)
}
