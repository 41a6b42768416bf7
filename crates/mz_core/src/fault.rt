//! Why no round is begun.

use crate::Waiting;
use mz_time::Time;
use sqlite_items::Items;
use thiserror::Error;

/// Why no round is begun.
#[derive(Debug, Drop, Error)]
pub enum BeginFault {
    /// This round is open, and one is open at a time.
    #[error("round {round} is open")]
    RoundOpen {
        /// The number of the open round.
        round: u64,
    },
    /// No time is left. The commands that waited are refused.
    #[error("no time is left after {last} at {now}")]
    NoTime {
        /// The last time that a round was given, or 0.
        last: Time,
        /// What the clock said.
        now: u64,
        /// The commands that waited, in order.
        commands: Items<Waiting>,
    },
}
