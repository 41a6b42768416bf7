//! Names, columns and references, as they are printed.
ghost use Rattle.std.specs.Prelude.{◌≡◌, List, OnOk};
ghost use Rattle.mz_print.specs.Piece.{Piece};
ghost use Rattle.mz_print.specs.Print.{print_alias, print_column, print_reference, print_pair, print_group};
ghost use Rattle.mz_print.specs.Writer.{written};

use crate::list::{Print, print_listed};
use crate::writer::Writer;
use mz_grammar::Key;
use mz_statement::{ColumnName, ColumnPair, Reference};
use mz_value::Name;
use std::alloc::AllocError;

/// Adds AS and the alias, where there is one. An `Err` leaves a part of the text.
pub fn print_alias(out: &mut Writer, alias: &Option<Name>) -> Result<(), AllocError>
    ensures { OnOk result ((rest : List Piece)
        → written out.new rest ≡ written out.old (print_alias alias.now rest)) }
{
    match alias {
        None => Ok(()),
        Some(name) => {
            out.key(Key::As)?;
            out.name(name.as_str())
        }
    }
}

// A column, with what qualifies it.
impl Print for ColumnName {
    ghost pieces = { print_column };

    fn print(&self, out: &mut Writer) -> Result<(), AllocError> {
        match &self.qualifier {
            None => out.name(self.name.as_str()),
            Some(qualifier) => {
                out.name(qualifier.as_str())?;
                out.key(Key::Dot)?;
                out.name(self.name.as_str())
            }
        }
    }
}

/// Adds a relation, with its alias.
pub fn print_reference(out: &mut Writer, reference: &Reference) -> Result<(), AllocError>
    ensures { OnOk result ((rest : List Piece)
        → written out.new rest ≡ written out.old (print_reference reference.now rest)) }
{
    out.name(reference.name.as_str())?;
    print_alias(out, &reference.alias)
}

// Two columns that are equal.
impl Print for ColumnPair {
    ghost pieces = { print_pair };

    fn print(&self, out: &mut Writer) -> Result<(), AllocError> {
        self.left.print(out)?;
        out.key(Key::Equal)?;
        self.right.print(out)
    }
}

/// Adds GROUP BY and its columns, where there are some.
pub fn print_group(out: &mut Writer, columns: &[ColumnName]) -> Result<(), AllocError>
    ensures { OnOk result ((rest : List Piece)
        → written out.new rest ≡ written out.old (print_group columns.now rest)) }
{
    match columns {
        [] => Ok(()),
        [_, ..] => {
            out.key(Key::Group)?;
            out.key(Key::By)?;
            print_listed(out, Key::Comma, columns)
        }
    }
}
