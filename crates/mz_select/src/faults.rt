//! The refusals of resolution, with their texts.
ghost use Rattle.std.specs.Prelude.{◌≡◌, IfOk, codes, length, nat_le};
ghost use Rattle.mz_resolution.specs.Columns.{column_text};
ghost use Rattle.mz_resolution.specs.Queries.{most_columns};
ghost use Rattle.mz_refusal.specs.declared.refusal.Limited.TheVariants.{Columns};
ghost use Rattle.mz_refusal.specs.declared.refusal.Refusal.TheVariants.{TooMany, UnknownColumn, UnknownName, WrongType};

use mz_refusal::{Limited, Refusal};
use mz_statement::{Column, ColumnName};
use mz_value::{Name, Text};
use std::alloc::{AllocError, Global};

/// How many columns a table, a view or a result may have.
pub const MOST_COLUMNS: u64 = 16;

/// Whether there are no more columns than there may be. Takes no memory.
pub fn are_few(columns: &[Column]) -> bool
    ensures { result ≡ nat_le (length columns.now) most_columns }
{
    columns.len() as u64 <= MOST_COLUMNS
}

/// There are more columns than there may be. Takes no memory.
pub fn too_many_columns() -> Refusal
    ensures { result ≡ TooMany Columns most_columns }
{
    Refusal::TooMany {
        what: Limited::Columns,
        limit: MOST_COLUMNS,
    }
}

// The name of a column as it is written.
fn column_text(alloc: Global, column: &ColumnName) -> Result<Text, AllocError>
    ensures { IfOk result (λ text. text ≡ column_text column.now) }
{
    let name = &column.name;
    match &column.qualifier {
        Some(qualifier) => Ok(Text::from_string(format!(in alloc; "{qualifier}.{name}")?)),
        None => Ok(Text::from_string(format!(in alloc; "{name}")?)),
    }
}

/// No column of exactly one reference has this name.
pub fn unknown_column(alloc: Global, column: &ColumnName) -> Result<Refusal, AllocError>
    ensures { IfOk result (λ refusal. refusal ≡ UnknownColumn (column_text column.now)) }
{
    Ok(Refusal::UnknownColumn {
        name: column_text(alloc, column)?,
    })
}

/// The column is of another type than it is used as.
pub fn wrong_column(alloc: Global, column: &ColumnName) -> Result<Refusal, AllocError>
    ensures { IfOk result (λ refusal. refusal ≡ WrongType (column_text column.now)) }
{
    Ok(Refusal::WrongType {
        name: column_text(alloc, column)?,
    })
}

/// What has this name is of another kind or type than it is used as.
pub fn wrong_name(alloc: Global, name: &Name) -> Result<Refusal, AllocError>
    ensures { IfOk result (λ refusal. refusal ≡ WrongType name.now) }
{
    Ok(Refusal::WrongType {
        name: Text::from_string(format!(in alloc; "{name}")?),
    })
}

/// No item has this name.
pub fn unknown_name(alloc: Global, name: &Name) -> Result<Refusal, AllocError>
    ensures { IfOk result (λ refusal. refusal ≡ UnknownName name.now) }
{
    Ok(Refusal::UnknownName {
        name: name.try_copy(alloc)?,
    })
}

/// A part of a statement is of another kind or type than it is used as.
pub fn wrong_part(alloc: Global, part: &str) -> Result<Refusal, AllocError>
    ensures { IfOk result (λ refusal. refusal ≡ WrongType part.now) }
{
    Ok(Refusal::WrongType {
        name: Text::from_string(String::from_str(alloc, part)?),
    })
}
