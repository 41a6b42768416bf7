//! Carries out lines that do nothing: it counts them, and says of each that it can't be read or isn't built.
ghost use Rattle.std.specs.Prelude.{◌≡◌, ◌++◌, OnOk, false, string_bytes};
ghost use Rattle.mz_script.specs.EventTexts.{unbuilt_text};
ghost use Rattle.mz_script.specs.ScriptLine.{opening_machine};

use mz_script::ScriptLine;
use mz_shell::Carrier;
use std::alloc::{AllocError, Global};

/// Counts lines. A line that does something is refused as if there were no memory.
#[derive(Drop)]
pub struct Counter {
    lines: u64,
}

// Says of the line of this number that it isn't built.
fn write_unbuilt(is_built: bool, number: u64, text: &mut String) -> Result<(), AllocError>
    ensures unbuilt { OnOk result (is_built ≡ false) }
    ensures text { OnOk result (string_bytes text.new ≡ string_bytes text.old ++ unbuilt_text number) }
{
    if is_built {
        return Err(AllocError);
    }
    write!(text, "line {number} is not built\n")
}

impl Carrier for Counter {
    ghost use Rattle.std.proofs.Common.{subst, sym};
    ghost use Rattle.mz_books.specs.Legal.{Legal};
    ghost use Rattle.mz_script.specs.ScriptLine.{Machine};

    ghost stands = { λ counter machine. machine ≡ record opening_machine { lines = counter.lines } };

    ghost lines = { λ counter. counter.lines };

    fn fresh(_: Global) -> Result<Counter, AllocError> {
        Ok(Counter { lines: 0 })
    }

    fn line(&mut self, line: ScriptLine, text: &mut String) -> Result<(), AllocError> {
        let number = self.lines + 1;
        self.lines = number;
        match line {
            ScriptLine::Skipped => Ok(()),
            ScriptLine::Unreadable => write!(text, "line {number} is unreadable\n"),
            other => write_unbuilt(other.is_built(), number, text),
        }
    }

    ghost legal = { λ counter machine same. subst (λ (m : Machine). Legal m.log) (sym same) tt };
}
