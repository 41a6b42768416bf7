//! Lists, as they are printed.
ghost use Rattle.std.specs.Prelude.{◌≡◌, List, OnOk};
ghost use Rattle.mz_print.specs.Piece.{Piece, Fixed};
ghost use Rattle.mz_print.specs.Print.{print_more, print_listed};
ghost use Rattle.mz_print.specs.Writer.{written};

use crate::writer::Writer;
use mz_grammar::Key;
use std::alloc::AllocError;

/// What a list that is printed may have as members.
pub trait Print {
    ghost pieces: { Self → List Piece → List Piece };

    /// Adds the member. An `Err` leaves a part of its text.
    fn print(&self, out: &mut Writer) -> Result<(), AllocError>
        ensures { OnOk result ((rest : List Piece)
            → written out.new rest ≡ written out.old (pieces self.now rest)) };
}

/// Adds the members, each behind the key. An `Err` leaves a part of the text.
pub fn print_more<T: Print>(out: &mut Writer, key: Key, members: &[T]) -> Result<(), AllocError>
    ensures { OnOk result ((rest : List Piece) → written out.new rest
        ≡ written out.old (print_more (Fixed key) T.pieces members.now rest)) }
{
    'members: for member in members {
        out.key(key)?;
        member.print(out)?;
    }
    Ok(())
}

/// Adds the members, with the key between. An `Err` leaves a part of the text.
pub fn print_listed<T: Print>(out: &mut Writer, key: Key, members: &[T]) -> Result<(), AllocError>
    ensures { OnOk result ((rest : List Piece) → written out.new rest
        ≡ written out.old (print_listed (Fixed key) T.pieces members.now rest)) }
{
    let [first, others @ ..] = members else {
        return Ok(());
    };
    first.print(out)?;
    print_more(out, key, others)
}
