//! What a replica sends back.
ghost use Rattle.std.specs.Prelude.{◌≡◌, IfOk};

use crate::lists::{Answers, Frontiers, copied};
use mz_value::Name;
use std::alloc::{AllocError, Global};

/// A packet of a replica: how far it had come after a turn, and its answers.
#[derive(Drop)]
pub struct Packet {
    /// The name of the replica.
    pub replica: Name,
    /// How often the replica had joined.
    pub incarnation: u64,
    /// How many turns it had made since it joined, the one that gave the packet not counted.
    pub turn: u64,
    /// How many lines of its stream it had taken.
    pub taken: u64,
    /// The first time for which it had no contents of tables.
    pub ready: u64,
    /// How far each collection has come that it keeps, in order of collections.
    pub frontiers: Frontiers,
    /// Its answers, in order of peeks.
    pub answers: Answers,
}

impl Packet {
    /// A copy of the packet.
    pub fn try_copy(&self, alloc: Global) -> Result<Packet, AllocError>
        ensures { IfOk result (λ copy. copy ≡ self.now) }
    {
        let replica = self.replica.try_copy(alloc)?;
        let frontiers = copied(alloc, &self.frontiers)?;
        let answers = copied(alloc, &self.answers)?;
        Ok(Packet {
            replica,
            incarnation: self.incarnation,
            turn: self.turn,
            taken: self.taken,
            ready: self.ready,
            frontiers,
            answers,
        })
    }
}
