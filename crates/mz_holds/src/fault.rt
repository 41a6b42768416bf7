//! Why a hold isn't moved.

use mz_time::Time;
use thiserror::Error;

/// A hold is moved to later times alone. It is as before.
#[derive(Clone, Copy, Debug, PartialEq, Eq, Drop, Error)]
#[error("the hold is at {at}, after {asked}")]
pub struct BelowHold {
    /// The time of the hold.
    pub at: Time,
    /// The time that was asked for.
    pub asked: Time,
}
