//! Counted times.
ghost use Rattle.std.specs.Prelude.{◌≡◌, ◌+◌, ◌<◌, ◌≤◌, [], OnOk, length};
ghost use Rattle.mz_counted.specs.Counted.{count, inserted, least_of, removed};

use crate::places::{how_often, put, take_out};
use mz_time::{Frontier, Time};
use std::alloc::{AllocError, Global};
use std::marker::Model;

/// Times, each with one slot for each time that it was put in. Only `reserve` takes memory.
#[derive(Drop)]
pub struct Counted {
    // They fall, so that the least is at the end.
    times: Vec<Time>,
}

impl Model for Counted {
    ghost use Rattle.std.specs.Prelude.{◌-◌, vec_len, vec_capacity};
    ghost use Rattle.mz_counted.specs.Counted.{CountedTimes, IsFalling};

    ghost Value = { CountedTimes };

    ghost view = { λ c. record {
      times = c.times.items;
      spare = vec_capacity c.times - vec_len c.times;
    } };

    ghost invariant = { λ c. IsFalling c.times.items };
}

impl Counted {
    /// No time, and no room for one. Takes no memory.
    pub fn empty(alloc: Global) -> Counted
        ensures { result.times ≡ [] }
    {
        Counted {
            times: Vec::new(alloc),
        }
    }

    /// Makes room for so many times more. After an `Err` nothing has changed. O(n), where n times are there; O(1) where there is room.
    pub fn reserve(&mut self, n: usize) -> Result<(), AllocError>
        ensures times { self.new.times ≡ self.old.times }
        ensures spare { self.old.spare ≤ self.new.spare }
        ensures ok { OnOk result (n ≤ self.new.spare) }
    {
        self.times.reserve(n)
    }

    /// Puts a time in. Takes no memory. O(log n), and a shift of the lesser times, of 8 bytes each.
    pub fn insert(&mut self, t: Time)
        requires { 0 < self.old.spare }
        ensures times { self.new.times ≡ inserted t self.old.times }
        ensures spare { self.new.spare + 1 ≡ self.old.spare }
    {
        put(&mut self.times, t);
    }

    /// Takes a time out, once. Its slot is free then. Takes no memory. O(log n), and a shift of the lesser times.
    pub fn remove(&mut self, t: Time)
        requires { 0 < count t self.old.times }
        ensures times { self.new.times ≡ removed t self.old.times }
        ensures spare { self.new.spare ≡ self.old.spare + 1 }
    {
        take_out(&mut self.times, t);
    }

    /// Takes a time out, once, and puts another into its slot. Takes no memory, and no room. O(log n), and a shift of the lesser times.
    pub fn move_one(&mut self, from: Time, to: Time)
        requires { 0 < count from self.old.times }
        ensures times { self.new.times ≡ inserted to (removed from self.old.times) }
        ensures spare { self.new.spare ≡ self.old.spare }
    {
        take_out(&mut self.times, from);
        put(&mut self.times, to);
    }

    /// The least of the times, or `Done` where there is none. Takes no memory. O(1).
    pub fn least(&self) -> Frontier
        ensures { result ≡ least_of self.now.times }
    {
        match self.times.last() {
            Some(time) => Frontier::At(*time),
            None => Frontier::Done,
        }
    }

    /// How often the time is there. Takes no memory. O(log n).
    pub fn count(&self, t: Time) -> u64
        ensures { result ≡ count t self.now.times }
    {
        how_often(&self.times, t) as u64
    }

    /// How many times are there, each as often as it is. Takes no memory. O(1).
    pub fn total(&self) -> u64
        ensures { result ≡ length self.now.times }
    {
        self.times.len() as u64
    }
}
