//! The calls of an end in memory, of which some fail.
ghost use Rattle.std.specs.Prelude.{◌≡◌, ◌≤◌, List, ℕ, false, true, is_err};
ghost use Rattle.mz_io.specs.Causes.{HasCause, one_more};
ghost use Rattle.mz_io.specs.Memory.{Attempts, after_call, fails_next, none_made};

use super::source::Failed;
use std::marker::Model;

/// Counts the calls from 1, and fails those whose numbers were given.
#[derive(Drop)]
pub struct Calls {
    made: u64,
    failing: Vec<u64>,
    faults: u64,
}

impl Model for Calls {
    ghost Value = { Attempts };

    ghost view = { λ c. record { made = c.made; failing = c.failing.items; faults = c.faults } };
}

impl Calls {
    /// No call was made, and those with these numbers will fail. Takes no memory.
    pub fn none_made(failing: Vec<u64>) -> Calls
        ensures { result ≡ none_made failing.items }
    {
        Calls {
            made: 0,
            failing,
            faults: 0,
        }
    }

    /// Makes the next call, which fails where its number was given.
    pub fn next(&mut self) -> Result<(), Failed>
        ensures fails { is_err result ≡ fails_next self.old }
        ensures cause { HasCause self.old.faults self.new.faults result }
        ensures after { self.new ≡ after_call self.old (is_err result) }
    {
        self.made = self.made.saturating_add(1);
        if self.failing.as_slice().contains(&self.made) {
            return Err(self.fault());
        }
        Ok(())
    }

    /// Counts a fault of the call that was made last.
    pub fn fault(&mut self) -> Failed
        ensures counted { self.new ≡ record self.old { faults = one_more self.old.faults } }
        ensures later { self.old.faults ≤ self.new.faults }
    {
        Failed::counted(&mut self.faults)
    }
}
