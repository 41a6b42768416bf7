//! Who carries a script out, line by line.
ghost use Rattle.std.specs.Prelude.{◌≡◌, ℕ, ◌+◌, ◌<◌, IfOk, OnOk, string_bytes};
ghost use Rattle.mz_script.specs.ScriptLine.{Machine, opening_machine};
ghost use Rattle.mz_script.specs.Built.{IsHeard, after_built_line};
ghost use Rattle.mz_books.specs.Legal.{Legal};
ghost use Rattle.mz_shell.specs.Carrier.{DidLines, IsCarrying, most_lines};

use mz_script::ScriptLine;
use std::alloc::{AllocError, Global};

/// Carries a script out, line by line. It stands for a machine: that of the lines so far.
pub trait Carrier: Sized + Drop {
    /// The machines that it stands for.
    ghost stands: { Self → Machine → Type 0 };

    /// How many lines it carried out.
    ghost lines: { Self → ℕ };

    /// Nothing has happened.
    fn fresh(alloc: Global) -> Result<Self, AllocError>
        ensures stands { IfOk result (λ carrier. stands carrier opening_machine) }
        ensures lines { IfOk result (λ carrier. lines carrier ≡ 0) };

    /// Does what a line says, and writes its text behind what stands in the text. After an `Err` it may stand for nothing.
    fn line(&mut self, line: ScriptLine, text: &mut String) -> Result<(), AllocError>
        requires machine { IsCarrying (stands self.old) }
        requires heard { IsHeard line }
        requires few { lines self.old < most_lines }
        ensures did { (machine : Machine) → stands self.old machine → OnOk result
            (DidLines (stands self.new) (string_bytes text.old) (string_bytes text.new) (after_built_line machine line)) }
        ensures counted { OnOk result (lines self.new ≡ lines self.old + 1) };

    /// The log of each machine for which it stands is legal.
    ghost legal: { (carrier : Self) (machine : Machine) → stands carrier machine → Legal machine.log };
}
