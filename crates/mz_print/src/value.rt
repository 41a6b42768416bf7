//! Literals and rows of them, as they are printed.
ghost use Rattle.std.specs.Prelude.{◌≡◌, List, OnOk};
ghost use Rattle.mz_print.specs.Piece.{Piece};
ghost use Rattle.mz_print.specs.Print.{print_whole, print_literal, print_tuple};
ghost use Rattle.mz_print.specs.Writer.{written};

use crate::list::{Print, print_listed};
use crate::writer::Writer;
use mz_grammar::Key;
use mz_value::{Datum, Row};
use std::alloc::AllocError;

// Adds a whole number, with its minus.
fn print_whole(out: &mut Writer, number: i128) -> Result<(), AllocError>
    ensures { OnOk result ((rest : List Piece)
        → written out.new rest ≡ written out.old (print_whole number rest)) }
{
    if number < 0 {
        out.key(Key::Minus)?;
    }
    out.number(number.unsigned_abs())
}

// A literal.
impl Print for Datum {
    ghost pieces = { print_literal };

    fn print(&self, out: &mut Writer) -> Result<(), AllocError> {
        match self {
            Datum::Int(number) => print_whole(out, i128::from(*number)),
            Datum::Text(text) => out.text(text.as_str()),
            Datum::Bool(true) => out.key(Key::True),
            Datum::Bool(false) => out.key(Key::False),
            Datum::Wide(number) => print_whole(out, *number),
        }
    }
}

// Literals in parentheses.
impl Print for Row {
    ghost pieces = { print_tuple };

    fn print(&self, out: &mut Writer) -> Result<(), AllocError> {
        out.key(Key::Open)?;
        print_listed(out, Key::Comma, self.as_slice())?;
        out.key(Key::Close)
    }
}
