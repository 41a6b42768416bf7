//! Rows and updates as texts, and back: a character stands for a value, a digit for an INT, `>` and `<` for the
//! greatest and the least INT.
ghost use Rattle.std.specs.Prelude.{◌≡◌};

use mz_bag::CountedRows;
use mz_time::Time;
use mz_updates::{Update, Updates};
use mz_value::{Datum, Row, Text};
use std::alloc::{AllocError, Global};
use std::process::Abort;

/// A leaf, a row, a time, and by how much the row's count changes then.
pub type Change<'a> = (u64, &'a str, u64, i32);

/// The time of this number.
pub fn time(rt: &impl Abort, number: u64) -> Time
    ensures { result ≡ number }
{
    Time::new(number).expect(rt, "a time")
}

// The TEXT of a character.
fn word(alloc: Global, letter: char) -> Result<Datum, AllocError> {
    let mut text = String::new(alloc);
    text.push(letter)?;
    Ok(Datum::Text(Text::from_string(text)))
}

// The value that a character stands for.
fn value(alloc: Global, letter: char) -> Result<Datum, AllocError> {
    match (letter, letter.to_digit(10)) {
        ('>', _) => Ok(Datum::Int(i32::MAX)),
        ('<', _) => Ok(Datum::Int(i32::MIN)),
        (_, Some(digit)) => Ok(Datum::Int(digit as i32)),
        (_, None) => word(alloc, letter),
    }
}

/// The row of the values that these characters stand for.
pub fn row(alloc: Global, letters: &str) -> Result<Row, AllocError> {
    let mut values = Vec::new(alloc);
    for letter in letters.chars() {
        values.push(value(alloc, letter)?)?;
    }
    Ok(Row::from_vec(values))
}

/// A change as updates of its leaf.
pub fn update(rt: &impl Abort, alloc: Global, change: Change) -> Result<Updates, AllocError> {
    let (_, letters, number, diff) = change;
    let mut updates = Updates::empty(alloc);
    updates.push(row(alloc, letters)?, time(rt, number), i128::from(diff))?;
    Ok(updates)
}

// Writes a value behind a text.
fn push_value(text: &mut String, value: &Datum) -> Result<(), AllocError> {
    match value {
        Datum::Int(number) => write!(text, "{number}"),
        Datum::Text(word) => write!(text, "{}", word.as_str()),
        Datum::Bool(truth) => write!(text, "{truth}"),
        Datum::Wide(number) => write!(text, "{number}"),
    }
}

// Writes the values of a row behind a text.
fn push_row(text: &mut String, row: &Row) -> Result<(), AllocError> {
    for value in row.as_slice() {
        push_value(text, value)?;
    }
    Ok(())
}

// Writes an update behind a text.
fn push_update(text: &mut String, update: &Update) -> Result<(), AllocError> {
    push_row(text, &update.row)?;
    write!(text, " at {}: {}; ", update.time.number(), update.diff)
}

/// Writes updates behind a text, of each its row, its time and its diff, and a bar behind them.
pub fn push_updates(text: &mut String, updates: &Updates) -> Result<(), AllocError> {
    for update in updates.as_slice() {
        push_update(text, update)?;
    }
    write!(text, "| ")
}

/// Rows with their counts as a text.
pub fn counted(alloc: Global, rows: &CountedRows) -> Result<String, AllocError> {
    let mut text = String::new(alloc);
    for one in rows.as_slice() {
        push_row(&mut text, &one.0)?;
        write!(text, " x {}; ", one.1)?;
    }
    Ok(text)
}
