//! Items that wait, and the round that took those that waited as it began.
ghost use Rattle.std.specs.Prelude.{◌≡◌, ◌+◌, ◌^◌, ◌<◌, None, Some, length, slice_get, option_map, IfErr, OnOk, OnErr};
ghost use Rattle.mz_oracle.specs.Rounds.{no_rounds, round_items, round_after, with_item, with_round, without_round, without_place, without_queued};

use crate::RoundOpen;
use sqlite_items::Items;
use std::alloc::{AllocFailed, Global};
use std::marker::Model;
use std::mem;

/// Items that wait for a round, in the order in which they were queued, and the items of the round that is open. Rounds are
/// numbered from 1. Memory follows the items.
#[derive(Drop)]
pub struct Rounds<T> {
    // Where what is left behind grows.
    alloc: Global,
    // The items that are in no round.
    queued: Vec<T>,
    // The items of the open round.
    in_round: Option<Vec<T>>,
    // How many rounds were begun.
    begun: u64,
}

impl<T> Model for Rounds<T> {
    ghost use Rattle.std.specs.Prelude.{option_map};
    ghost use Rattle.mz_oracle.specs.Rounds.{RoundsState, state_code};

    ghost Value = { RoundsState T };

    ghost coded = { state_code T.code };

    ghost view = { λ r. record {
      queued = r.queued.items;
      in_round = option_map (λ items. items.items) r.in_round;
      begun = r.begun;
    } };
}

impl<T: Drop> Rounds<T> {
    /// No item, and no round yet. Takes no memory until an item is queued.
    pub fn fresh(alloc: Global) -> Rounds<T>
        ensures { result ≡ no_rounds }
    {
        Rounds {
            alloc,
            queued: Vec::new(alloc),
            in_round: None,
            begun: 0,
        }
    }

    /// Queues an item behind all others. O(1), amortized. An item that finds no memory comes back.
    pub fn queue(&mut self, item: T) -> Result<(), AllocFailed<T>>
        ensures ok { OnOk result (self.new ≡ with_item self.old item) }
        // On failure the item comes back, and the rounds are as before.
        ensures value_returned { IfErr result (λ failed. failed.value ≡ item) }
        ensures err { OnErr result (self.new ≡ self.old) }
    {
        self.queued.push(item)
    }

    /// Begins a round, which takes all items that wait, and gives its number. Takes no memory. O(1).
    pub fn begin(&mut self) -> Result<u64, RoundOpen>
        requires { self.old.begun + 1 < 2 ^ 64 }
        ensures round { result ≡ round_after self.old.begun self.old.in_round }
        ensures ok { OnOk result (self.new ≡ with_round self.old) }
        // Where a round is open, the rounds are as before.
        ensures err { OnErr result (self.new ≡ self.old) }
    {
        if self.in_round.is_some() {
            return Err(RoundOpen { round: self.begun });
        }
        self.in_round = Some(mem::replace(&mut self.queued, Vec::new(self.alloc)));
        self.begun += 1;
        Ok(self.begun)
    }

    /// Ends the open round and gives its items, in order; None where no round is open. Takes no memory. O(1).
    pub fn finish(&mut self) -> Option<Items<T>>
        ensures items { result ≡ self.old.in_round }
        ensures rest { self.new ≡ without_round self.old }
    {
        self.in_round.take().map(Items::from_vec)
    }

    /// Takes out the item at this place of those that wait, counted from 0. The others keep their order. Takes no memory.
    /// O(n), where n items wait.
    pub fn withdraw(&mut self, place: usize) -> T
        requires { place < length self.old.queued }
        ensures item { slice_get self.old.queued place ≡ Some result }
        ensures rest { self.new ≡ without_place self.old place }
    {
        self.queued.remove(place)
    }

    /// Takes out all items that wait, in order. The open round keeps its own. Takes no memory. O(1).
    pub fn empty(&mut self) -> Items<T>
        ensures items { result ≡ self.old.queued }
        ensures rest { self.new ≡ without_queued self.old }
    {
        Items::from_vec(mem::replace(&mut self.queued, Vec::new(self.alloc)))
    }

    /// The items that wait, in order. Takes no memory. O(1).
    pub fn queued(&self) -> &[T]
        ensures { result.now ≡ self.now.queued }
    {
        &self.queued
    }

    /// The items of the open round, in order; none where no round is open. Takes no memory. O(1).
    pub fn in_round(&self) -> &[T]
        ensures { result.now ≡ round_items self.now }
    {
        match &self.in_round {
            Some(items) => items,
            None => &[],
        }
    }

    /// The number of the open round, None where no round is open. Takes no memory. O(1).
    pub fn open_round(&self) -> Option<u64>
        ensures { result ≡ option_map (λ _. self.now.begun) self.now.in_round }
    {
        match &self.in_round {
            Some(_) => Some(self.begun),
            None => None,
        }
    }
}
