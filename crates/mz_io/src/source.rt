//! Where bytes come from, and the one failure of an end.
ghost use Rattle.std.specs.Prelude.{◌≡◌, ◌≤◌, ℕ, List};
ghost use Rattle.std.specs.declared.option.Option.{Option};
ghost use Rattle.std.specs.Io.{ReadsAtMost};
ghost use Rattle.std.specs.Io.KnownBytes.{ReadConsumes};
ghost use Rattle.mz_io.specs.Causes.{HasCause, one_more};

use thiserror::Error;

/// The outside failed in this call. The count of faults of the end that was called rose in it.
#[derive(Clone, Copy, Debug, PartialEq, Eq, Error)]
#[error("the outside failed")]
pub struct Failed;

impl Failed {
    /// A failure that raises this count of faults by one, or leaves it at 2 ^ 64 - 1. Takes no memory.
    pub fn counted(faults: &mut u64) -> Failed
        ensures raised { faults.new ≡ one_more faults.old }
        ensures later { faults.old ≤ faults.new }
    {
        *faults = faults.saturating_add(1);
        Failed
    }
}

/// A source of bytes.
pub trait Source {
    /// The bytes that are left, where the source can tell. Once told, they stay told.
    ghost left: { Self → Option (List ℕ) };

    /// How often the source has failed. It never falls, and stays at 2 ^ 64 - 1 once it is there.
    ghost faults: { Self → ℕ };

    /// Moves the next bytes to the front of `into`, and says how many. `Ok(0)` into a buffer that isn't empty is the end
    /// of the input. At `Failed` the bytes left stay as they were, and those in `into` are any. Takes no memory.
    fn read(&mut self, into: &mut [u8]) -> Result<usize, Failed>
        ensures bound { ReadsAtMost result into.new }
        ensures bytes { ReadConsumes (left self.old) (left self.new) result into.new }
        ensures cause { HasCause (faults self.old) (faults self.new) result };
}
