//! One update: a row whose count changes at a time.
ghost use Rattle.std.specs.Prelude.{◌≡◌};

use mz_time::Time;
use mz_value::{Row, TryCopy};
use std::alloc::{AllocError, Global};

/// A row, when its count changes, and by how much.
#[derive(Debug, PartialEq, Eq, Drop)]
pub struct Update {
    /// The row.
    pub row: Row,
    /// When its count changes.
    pub time: Time,
    /// By how much: more where it is above 0, less where it is below.
    pub diff: i128,
}

impl TryCopy for Update {
    fn try_copy(&self, alloc: Global) -> Result<Update, AllocError> {
        Ok(Update {
            row: self.row.try_copy(alloc)?,
            time: self.time,
            diff: self.diff,
        })
    }
}
