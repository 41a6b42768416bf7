//! Why no time is given, and why no round begins.

use mz_time::Time;
use thiserror::Error;

/// No time is left: the next one would be past the greatest that is ever given. The oracle is as before.
#[derive(Clone, Copy, Debug, PartialEq, Eq, Drop, Error)]
#[error("no time is left after {last} at {now}")]
pub struct TimeSpent {
    /// The last time that was given, or 0.
    pub last: Time,
    /// What the clock said.
    pub now: u64,
}

/// A round is open, and one is open at a time. The rounds are as before.
#[derive(Clone, Copy, Debug, PartialEq, Eq, Drop, Error)]
#[error("round {round} is open")]
pub struct RoundOpen {
    /// The number of the open round.
    pub round: u64,
}
