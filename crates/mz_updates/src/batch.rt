//! A batch: what a table sends to one who keeps a copy of it.
use crate::Updates;
use mz_time::Time;

/// The part of a table that one who keeps a copy lacks, up to a time (`specs/Batch.antt` says which).
#[derive(Debug, Drop)]
pub struct Batch {
    /// The number of the table's collection, or 0 where it isn't known yet.
    pub table: u64,
    /// The first time at which the copy has no contents yet.
    pub lower: u64,
    /// The last time that the batch is for.
    pub to: Time,
    /// The table's since: the first time at which it is readable.
    pub since: Time,
    /// Whether the batch has the table's contents at its since, and not only what changed from `lower` on.
    pub whole: bool,
    /// The updates, one for each row and time, by time and then by row.
    pub updates: Updates,
}
