//! What a replica is sent.
ghost use Rattle.std.specs.Prelude.{◌≡◌, IfOk};

use crate::lists::{Batches, Commands, copied};
use mz_plan::Place;
use mz_time::Time;
use mz_value::Name;
use std::alloc::{AllocError, Global};

/// A feed for a replica at a place: further lines of its stream, and what tables have up to a time.
#[derive(Drop)]
pub struct Feed {
    /// The name of the replica.
    pub replica: Name,
    /// The place that it is made for.
    pub place: Place,
    /// The lines of the replica's stream that the place hasn't taken, in order.
    pub commands: Commands,
    /// A batch for each table that isn't done.
    pub batches: Batches,
    /// The last time up to which it has the changes of tables.
    pub to: Time,
}

impl Feed {
    /// A copy of the feed.
    pub fn try_copy(&self, alloc: Global) -> Result<Feed, AllocError>
        ensures { IfOk result (λ copy. copy ≡ self.now) }
    {
        let replica = self.replica.try_copy(alloc)?;
        let batches = copied(alloc, &self.batches)?;
        let commands = copied(alloc, &self.commands)?;
        Ok(Feed {
            replica,
            place: self.place,
            commands,
            batches,
            to: self.to,
        })
    }
}
