//! Collections, and what keeps their past readable: the members of the books on holds and sinces, as code keeps them.

use mz_plan::Plan;
use mz_statement::Keep;
use mz_time::{Frontier, Time};
use mz_value::{Listed, Text};

/// A live hold: its collection stays readable at its time.
#[derive(Clone, Copy)]
pub struct Hold {
    /// Its number.
    pub number: u64,
    /// The number of the collection that it is on.
    pub collection: u64,
    /// Its time.
    pub time: Time,
    /// The session whose BEGIN took it, where one did.
    pub owner: Option<u64>,
}

/// What a collection was made for.
#[derive(Clone, Copy)]
pub enum CollectionKind {
    /// A table of the catalog.
    Table,
    /// An index of the catalog.
    Index,
    /// One peek.
    Transient,
}

/// Numbers of collections.
pub type Numbers = Listed<u64>;

/// A collection: what is kept up to date, and may be read from its since on and below its upper.
#[derive(Drop)]
pub struct Collection {
    /// Its number, counted from 1 in order of creation.
    pub number: u64,
    /// What it is called: the name of its item, or `peek` and the number of the peek that it was made for.
    pub name: Text,
    /// What it was made for.
    pub kind: CollectionKind,
    /// The number of its item, or 0 where it was made for a peek.
    pub item: u64,
    /// The cluster whose replicas keep it. Each replica keeps each table.
    pub cluster: u64,
    /// What it has, as a plan over items. A table's is that table.
    pub plan: Plan,
    /// The collections that it reads, each of which is older.
    pub inputs: Numbers,
    /// The first time at which it had contents.
    pub as_of: Time,
    /// How much of its past is kept for its own sake.
    pub keep: Keep,
    /// The time that is kept for its own sake. Done where it was made for a peek, and once its item is dropped.
    pub implied: Frontier,
    /// The first time at which it isn't readable yet.
    pub upper: Time,
}

/// A collection with its since.
#[derive(Drop)]
pub struct Settled {
    /// The collection.
    pub collection: Collection,
    /// The first time at which it is readable. Done where it can never be read again.
    pub since: Frontier,
}
