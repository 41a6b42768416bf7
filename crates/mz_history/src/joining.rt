//! How often one replica has joined, with its mark.
ghost use Rattle.std.specs.Prelude.{◌≡◌, ◌+◌, ◌<◌, ◌^◌, IfOk, bytes_eq};
ghost use Rattle.mz_history.specs.Kept.{joined_again, joined_first, marked_now, taken_back};

use mz_value::Name;
use std::alloc::{AllocError, Global};
use std::marker::Model;

/// How often a replica has joined, which can be taken back to what it was at a mark.
#[derive(Drop)]
pub struct Joining {
    replica: Name,
    times: u64,
    marked: u64,
}

impl Model for Joining {
    ghost use Rattle.mz_marked.specs.Twice.{Twice};
    ghost use Rattle.mz_history.specs.StreamBook.{Joined};

    ghost Value = { Twice Joined };

    ghost view = { λ j. record {
      present = record { replica = j.replica; times = j.times };
      marked = record { replica = j.replica; times = j.marked };
    } };
}

impl Joining {
    /// A replica that has joined once.
    pub fn first(alloc: Global, replica: &Name) -> Result<Joining, AllocError>
        ensures { IfOk result (λ joining. joining ≡ joined_first replica.now) }
    {
        Ok(Joining {
            replica: replica.try_copy(alloc)?,
            times: 1,
            marked: 0,
        })
    }

    /// Whether it is of this replica. Takes no memory.
    pub fn is_of(&self, replica: &Name) -> bool
        ensures { result ≡ bytes_eq self.now.present.replica replica.now }
    {
        self.replica == *replica
    }

    /// How often the replica has joined. Takes no memory.
    pub fn times(&self) -> u64
        ensures { result ≡ self.now.present.times }
    {
        self.times
    }

    /// The replica has joined once more. Takes no memory.
    pub fn join(&mut self)
        requires { self.old.present.times + 1 < 2 ^ 64 }
        ensures { self.new ≡ joined_again self.old }
    {
        self.times += 1;
    }

    /// Remembers how often. Takes no memory.
    pub fn mark(&mut self)
        ensures { self.new ≡ marked_now self.old }
    {
        self.marked = self.times;
    }

    /// As often as at the mark again. Takes no memory.
    pub fn back(&mut self)
        ensures { self.new ≡ taken_back self.old }
    {
        self.times = self.marked;
    }
}
