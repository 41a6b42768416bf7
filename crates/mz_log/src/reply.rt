//! What calls are told in the end.

use mz_bag::CountedRows;
use mz_refusal::Refusal;
use mz_time::Time;
use mz_value::{Listed, Text};

/// What a round replies to a command.
#[derive(Drop)]
pub enum SeqReply {
    /// The item of this number was made.
    Created(u64),
    /// The item was removed.
    Dropped,
    /// So many rows were inserted, a row that was named twice counted twice.
    Inserted(u64),
    /// So many rows were deleted, each counted as often as it was there.
    Deleted(u64),
    /// The round refused the command, which changed nothing.
    Refused(Refusal),
}

/// How far a collection is readable, and how many hold it.
#[derive(Drop)]
pub struct FrontierRow {
    /// The number of the collection.
    pub id: u64,
    /// What it is called: the name of its item, or `peek` and the number of the peek that it was made for.
    pub name: Text,
    /// The first time at which it is readable.
    pub since: Time,
    /// The first time at which it isn't readable yet.
    pub upper: Time,
    /// How many live holds there are on it.
    pub holds: u64,
}

/// How far collections are readable, in order of creation.
pub type FrontierRows = Listed<FrontierRow>;

/// What a call is told in the end. The variant alone says whether a round applied the call, and whether it read.
#[derive(Drop)]
pub enum Reply {
    /// A round applied the command, and replied this.
    Command(SeqReply),
    /// The rows of a query at its time, with their counts, in order of values.
    Rows(Time, CountedRows),
    /// The statement was carried out, and has this time.
    Instant(Time),
    /// How far each collection is readable, at this time.
    Frontiers(Time, FrontierRows),
    /// The call was refused, and no round applied it.
    Refused(Refusal),
    /// The call was ended at this time, before it had a reply.
    Cancelled(Time),
}
