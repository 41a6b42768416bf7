//! The lists of feeds and packets, and how their members are copied.
ghost use Rattle.std.specs.Prelude.{◌≡◌, IfOk};

use mz_plan::{Answer, Command};
use mz_time::Time;
use mz_updates::Batch;
use mz_value::{Listed, TryCopy};
use std::alloc::{AllocError, Global};

/// The lines of a stream, in order.
pub type Commands = Listed<Command>;

/// A batch for each table.
pub type Batches = Listed<Batch>;

/// How far collections have come: the number of each, and the first time at which it isn't readable
/// yet.
pub type Frontiers = Listed<(u64, Time)>;

/// The answers to peeks.
pub type Answers = Listed<Answer>;

/// What feeds and packets have lists of.
pub trait Member: Sized {
    /// A copy of the member.
    fn copy(&self, alloc: Global) -> Result<Self, AllocError>
        ensures { IfOk result (λ copy. copy ≡ self.now) };
}

impl Member for Command {
    fn copy(&self, alloc: Global) -> Result<Command, AllocError> {
        self.try_copy(alloc)
    }
}

impl Member for Batch {
    fn copy(&self, alloc: Global) -> Result<Batch, AllocError> {
        Ok(Batch {
            table: self.table,
            lower: self.lower,
            to: self.to,
            since: self.since,
            whole: self.whole,
            updates: self.updates.try_copy(alloc)?,
        })
    }
}

impl Member for (u64, Time) {
    fn copy(&self, _alloc: Global) -> Result<(u64, Time), AllocError> {
        Ok(*self)
    }
}

impl Member for Answer {
    fn copy(&self, alloc: Global) -> Result<Answer, AllocError> {
        self.try_copy(alloc)
    }
}

/// A copy of a list. O(n), for n members of one size.
pub fn copied<T: Member + Drop>(alloc: Global, members: &Listed<T>) -> Result<Listed<T>, AllocError>
    ensures { IfOk result (λ copy. copy ≡ members.now) }
{
    let members = members.as_slice();
    let mut copy = Vec::with_capacity(alloc, members.len())?;
    for member in members {
        copy.push(member.copy(alloc)?)?;
    }
    Ok(Listed::from_vec(copy))
}
