//! What each incarnation of a replica is told, and what it told last: the members of the book of streams, as code keeps them.

use mz_plan::Command;
use mz_value::{Listed, Name};

/// How far a replica said that it is.
#[derive(Clone, Copy)]
pub struct Report {
    /// How many turns it had made since it joined.
    pub turn: u64,
    /// How many lines of its stream it had taken.
    pub taken: u64,
    /// The first time for which it had no contents of tables.
    pub ready: u64,
}

/// The lines of a stream, in order.
pub type Commands = Listed<Command>;

/// An incarnation of a replica, from one joining to the next: all that it is told, and its last report.
#[derive(Drop)]
pub struct Stream {
    /// The name of the replica.
    pub replica: Name,
    /// How often the replica had joined, this time counted.
    pub incarnation: u64,
    /// The cluster that the replica belongs to.
    pub cluster: u64,
    /// Whether it is at work, and wasn't lost.
    pub live: bool,
    /// What it is told, from its joining on.
    pub commands: Commands,
    /// The report that counts of it, where there is one.
    pub report: Option<Report>,
}
