//! Rows and updates as texts, and back: a character stands for a value, a digit for an INT, `>` and `<` for the
//! greatest and the least INT, and `*` for a WIDE that is larger.
ghost use Rattle.std.specs.Prelude.{◌≡◌};

use mz_time::Time;
use mz_updates::{Update, Updates};
use mz_value::{Datum, Row, Text};
use std::alloc::{AllocError, Global};
use std::process::Abort;

/// A row, a time, and by how much the row's count changes then.
pub type Change<'a> = (&'a str, u64, i32);

/// The time of this number.
pub fn time(rt: &impl Abort, number: u64) -> Time
    ensures { result ≡ number }
{
    Time::new(number).expect(rt, "a time")
}

// The TEXT of a character.
fn word(alloc: Global, letter: char) -> Result<Datum, AllocError> {
    let mut text = String::new(alloc);
    text.push(letter)?;
    Ok(Datum::Text(Text::from_string(text)))
}

// The value that a character stands for.
fn value(alloc: Global, letter: char) -> Result<Datum, AllocError> {
    match (letter, letter.to_digit(10)) {
        ('>', _) => Ok(Datum::Int(i32::MAX)),
        ('<', _) => Ok(Datum::Int(i32::MIN)),
        ('*', _) => Ok(Datum::Wide(1 << 31 | 1)),
        (_, Some(digit)) => Ok(Datum::Int(digit as i32)),
        (_, None) => word(alloc, letter),
    }
}

/// The row of the values that these characters stand for.
pub fn row(alloc: Global, letters: &str) -> Result<Row, AllocError> {
    let mut values = Vec::new(alloc);
    for letter in letters.chars() {
        values.push(value(alloc, letter)?)?;
    }
    Ok(Row::from_vec(values))
}

/// Those of some changes that are at times from `lower` on and below `upper`, in their order.
pub fn updates(
    rt: &impl Abort,
    alloc: Global,
    changes: &[Change],
    lower: u64,
    upper: u64,
) -> Result<Updates, AllocError> {
    let mut updates = Updates::empty(alloc);
    for &(letters, number, diff) in changes {
        if lower <= number && number < upper {
            updates.push(row(alloc, letters)?, time(rt, number), i128::from(diff))?;
        }
    }
    Ok(updates)
}

// Writes a value behind a text.
fn push_value(text: &mut String, value: &Datum) -> Result<(), AllocError> {
    match value {
        Datum::Int(number) => write!(text, "{number}"),
        Datum::Text(word) => write!(text, "{}", word.as_str()),
        Datum::Bool(truth) => write!(text, "{truth}"),
        Datum::Wide(number) => write!(text, "{number}"),
    }
}

// Writes an update behind a text.
fn push_update(text: &mut String, update: &Update) -> Result<(), AllocError> {
    for value in update.row.as_slice() {
        push_value(text, value)?;
    }
    write!(text, " at {}: {}; ", update.time.number(), update.diff)
}

/// Updates as a text, of each its row, its time and its diff.
pub fn written(alloc: Global, updates: &Updates) -> Result<String, AllocError> {
    let mut text = String::new(alloc);
    for update in updates.as_slice() {
        push_update(&mut text, update)?;
    }
    Ok(text)
}
