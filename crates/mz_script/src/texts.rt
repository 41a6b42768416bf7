//! Writes the texts of values, rows, refusals and replies behind a text.
ghost use Rattle.std.specs.Prelude.{◌≡◌, ◌++◌, OnOk, string_bytes};
ghost use Rattle.mz_script.specs.Texts.{value_text, more_values_text, values_text, row_line, row_lines, refused_words, reply_words};

use mz_log::SeqReply;
use mz_print::push_quoted;
use mz_refusal::Refusal;
use mz_value::{Datum, Row};
use std::alloc::AllocError;

// A value.
fn write_value(text: &mut String, value: &Datum) -> Result<(), AllocError>
    ensures { OnOk result (string_bytes text.new ≡ string_bytes text.old ++ value_text value.now) }
{
    match value {
        Datum::Int(number) => write!(text, "{number}"),
        Datum::Text(letters) => push_quoted(text, letters.as_str()),
        Datum::Bool(true) => text.push_str("TRUE"),
        Datum::Bool(false) => text.push_str("FALSE"),
        Datum::Wide(number) => write!(text, "{number}"),
    }
}

// Values, a comma and a space before each.
fn write_more_values(text: &mut String, values: &[Datum]) -> Result<(), AllocError>
    ensures { OnOk result
        (string_bytes text.new ≡ string_bytes text.old ++ more_values_text values.now) }
{
    for value in values {
        text.push_str(", ")?;
        write_value(text, value)?;
    }
    Ok(())
}

// Values, a comma and a space between them.
fn write_values(text: &mut String, values: &[Datum]) -> Result<(), AllocError>
    ensures { OnOk result
        (string_bytes text.new ≡ string_bytes text.old ++ values_text values.now) }
{
    let Some((first, more)) = values.split_first() else {
        return Ok(());
    };
    write_value(text, first)?;
    write_more_values(text, more)
}

// A row with its count, as a line.
fn write_row(text: &mut String, row: &Row, count: i128) -> Result<(), AllocError>
    ensures { OnOk result
        (string_bytes text.new ≡ string_bytes text.old ++ row_line (row.now, count)) }
{
    write!(text, "  {count} x (")?;
    write_values(text, row.as_slice())?;
    text.push_str(")\n")?;
    Ok(())
}

/// Rows with their counts, a line each. Cost: the text. An `Err` leaves a front of it behind the text.
pub fn write_rows(text: &mut String, rows: &[(Row, i128)]) -> Result<(), AllocError>
    ensures { OnOk result (string_bytes text.new ≡ string_bytes text.old ++ row_lines rows.now) }
{
    for (row, count) in rows {
        write_row(text, row, *count)?;
    }
    Ok(())
}

/// A refusal, by its number and its text.
pub fn write_refusal(text: &mut String, refusal: &Refusal) -> Result<(), AllocError>
    ensures { OnOk result
        (string_bytes text.new ≡ string_bytes text.old ++ refused_words refusal.now) }
{
    write!(text, "refused {}{refusal}", refusal.number())
}

/// What a round replied to a command.
pub fn write_reply(text: &mut String, reply: &SeqReply) -> Result<(), AllocError>
    ensures { OnOk result (string_bytes text.new ≡ string_bytes text.old ++ reply_words reply.now) }
{
    match reply {
        SeqReply::Created(_) => text.push_str("created"),
        SeqReply::Dropped => text.push_str("dropped"),
        SeqReply::Inserted(rows) => write!(text, "inserted {rows}"),
        SeqReply::Deleted(rows) => write!(text, "deleted {rows}"),
        SeqReply::Refused(refusal) => write_refusal(text, refusal),
    }
}
