//! A frontier: the time that something has come to, or that it is done.
ghost use Rattle.std.specs.Prelude.{◌≡◌, ◌↔◌, IsTrue};
ghost use Rattle.mz_time.specs.Frontier.{Le, Passes, join, meet, step_back};

use super::time::Time;

/// How far something has come. `Done` is after every time.
#[derive(Clone, Copy, Debug, PartialEq, Eq, PartialOrd, Ord, Hash)]
pub enum Frontier {
    /// At this time, from which on something may still come.
    At(Time),
    /// Nothing more comes.
    Done,
}

impl Frontier {
    /// Whether this frontier is at or before the other. Takes no memory.
    pub fn le(&self, other: &Frontier) -> bool
        ensures { IsTrue result ↔ Le self.now other.now }
    {
        let Frontier::At(bound) = other else {
            return true;
        };
        match self {
            Frontier::At(time) => time <= bound,
            Frontier::Done => false,
        }
    }

    /// The lesser of the two. Takes no memory.
    pub fn meet(self, other: Frontier) -> Frontier
        ensures { result ≡ meet self other }
    {
        if self.le(&other) { self } else { other }
    }

    /// The greater of the two. Takes no memory.
    pub fn join(self, other: Frontier) -> Frontier
        ensures { result ≡ join self other }
    {
        if self.le(&other) { other } else { self }
    }

    /// Whether this frontier is after the time, not at or before it. Takes no memory.
    pub fn passes(&self, t: Time) -> bool
        ensures { IsTrue result ↔ Passes self.now t }
    {
        match self {
            Frontier::At(time) => *time > t,
            Frontier::Done => true,
        }
    }

    /// The frontier that is `n` times before this one, but not before the first time. `Done` stays. Takes no memory.
    pub fn step_back(&self, n: u64) -> Frontier
        ensures { result ≡ step_back self.now n }
    {
        match self {
            Frontier::At(time) => Frontier::At(time.back(n)),
            Frontier::Done => Frontier::Done,
        }
    }
}
