//! What replicas are told, where they stand, and what they answer.
ghost use Rattle.std.specs.Prelude.{◌≡◌, IfOk};

use crate::Plan;
use mz_bag::CountedRows;
use mz_time::{Frontier, Time};
use std::alloc::{AllocError, Global};

/// One line of a replica's stream: what the replica is told to do.
#[derive(Drop)]
pub enum Command {
    /// Makes a collection with this plan, readable from a time on.
    Create {
        collection: u64,
        plan: Plan,
        as_of: Time,
    },
    /// Lets the collection forget what is before the frontier, or go where that is done.
    Allow {
        collection: u64,
        since: Frontier,
    },
    /// Asks for the rows of the collection at a time.
    Peek {
        peek: u64,
        collection: u64,
        time: Time,
    },
    /// Ends a peek.
    Retire {
        peek: u64,
    },
}

impl Command {
    /// A copy of the line. Only a plan takes memory.
    pub fn try_copy(&self, alloc: Global) -> Result<Command, AllocError>
        ensures { IfOk result (λ copy. copy ≡ self.now) }
    {
        Ok(match self {
            Command::Create {
                collection,
                plan,
                as_of,
            } => Command::Create {
                collection: *collection,
                plan: plan.try_copy(alloc)?,
                as_of: *as_of,
            },
            Command::Allow { collection, since } => Command::Allow {
                collection: *collection,
                since: *since,
            },
            Command::Peek {
                peek,
                collection,
                time,
            } => Command::Peek {
                peek: *peek,
                collection: *collection,
                time: *time,
            },
            Command::Retire { peek } => Command::Retire { peek: *peek },
        })
    }
}

/// A peek that was asked for and isn't answered yet.
#[derive(Clone, Copy, Debug, PartialEq, Eq)]
pub struct PendingPeek {
    /// Its number.
    pub peek: u64,
    /// The session that waits for it.
    pub session: u64,
    /// The call of that session that it answers.
    pub call: u64,
    /// The collection that is read.
    pub collection: u64,
    /// The time at which it is read.
    pub time: Time,
}

/// Where a replica stands.
#[derive(Clone, Copy, Debug, PartialEq, Eq)]
pub struct Place {
    /// How often it has joined.
    pub incarnation: u64,
    /// How many turns it has made since it joined.
    pub turn: u64,
    /// How many lines of its stream it has taken.
    pub taken: u64,
    /// The first time for which it has no contents of tables.
    pub ready: u64,
}

/// The answer to a peek.
#[derive(Drop)]
pub struct Answer {
    /// The number of the peek.
    pub peek: u64,
    /// The rows, with their counts.
    pub rows: CountedRows,
}

impl Answer {
    /// A copy of the answer.
    pub fn try_copy(&self, alloc: Global) -> Result<Answer, AllocError>
        ensures { IfOk result (λ copy. copy ≡ self.now) }
    {
        Ok(Answer {
            peek: self.peek,
            rows: self.rows.try_copy(alloc)?,
        })
    }
}
