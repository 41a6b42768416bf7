//! The oracle of times.
ghost use Rattle.std.specs.Prelude.{◌≡◌, IfOk, OnErr};
ghost use Rattle.mz_oracle.specs.Oracle.{opening, given, with_last, with_read, IsOracle};

use crate::TimeSpent;
use mz_time::Time;
use std::marker::Model;

/// The greatest time that is ever given.
pub const GREATEST_GIVEN: u64 = (1 << 63) - 2;

/// Gives each round its time, and says up to which time may be read. Takes no memory, and each call is O(1).
#[derive(Drop)]
pub struct Oracle {
    // The last time that was applied, or 0.
    read: Time,
    // The last time that was given, or 0.
    last: Time,
}

impl Model for Oracle {
    ghost use Rattle.mz_oracle.specs.Oracle.{OracleState, IsOracle};

    ghost Value = { OracleState };

    ghost view = { λ o. record { read = o.read; last = o.last } };

    ghost invariant = { λ o. IsOracle (record { read = o.read; last = o.last }) };
}

// The time that is given after the last one.
fn next_time(last: Time, now: u64) -> Result<Time, TimeSpent>
    ensures { result ≡ given last now }
{
    let next = now.max(last.number() + 1);
    match Time::new(next) {
        Some(time) if next <= GREATEST_GIVEN => Ok(time),
        _ => Err(TimeSpent { last, now }),
    }
}

impl Oracle {
    /// An oracle that has given no time: the first time may be read.
    pub fn empty() -> Oracle
        ensures { result ≡ opening }
    {
        Oracle {
            read: Time::zero(),
            last: Time::zero(),
        }
    }

    /// The time up to which may be read: the last that was applied, or 0.
    pub fn read(&self) -> Time
        ensures value { result ≡ self.now.read }
        ensures oracle { IsOracle self.now }
    {
        self.read
    }

    /// The last time that was given, or 0.
    pub fn last(&self) -> Time
        ensures value { result ≡ self.now.last }
        ensures oracle { IsOracle self.now }
    {
        self.last
    }

    /// The next time, where the clock stands at `now`: what the clock says, or one more than the last time that was given
    /// where it isn't past that. What may be read stays as it is.
    pub fn give(&mut self, now: u64) -> Result<Time, TimeSpent>
        ensures time { result ≡ given self.old.last now }
        ensures ok { IfOk result (λ time. self.new ≡ with_last self.old time) }
        // Where no time is left, the oracle is as before.
        ensures err { OnErr result (self.new ≡ self.old) }
    {
        let time = next_time(self.last, now)?;
        self.last = time;
        Ok(time)
    }

    /// Lets reads look up to this time, the last that was given.
    pub fn apply(&mut self, time: Time)
        requires { time ≡ self.old.last }
        ensures { self.new ≡ with_read self.old time }
    {
        self.read = time;
    }
}
