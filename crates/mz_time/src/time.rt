//! A time: a whole number from 0 to 9,223,372,036,854,775,807.
ghost use Rattle.std.specs.Prelude.{◌≡◌, ◌-◌, ◌^◌, ◌<◌, ℕ, Some, SomeIff, decimal};

use std::fmt;
use std::marker::Model;

/// A time, which counts from 0. The greatest is 9,223,372,036,854,775,807.
#[derive(Clone, Copy, Debug, PartialEq, Eq, PartialOrd, Ord, Hash)]
pub struct Time {
    number: u64,
}

impl Model for Time {
    ghost Value = { ℕ };

    ghost view = { λ t. t.number };

    ghost invariant = { λ t. t.number < 2 ^ 63 };

    ghost inverse = { λ n. record { number = n } };
}

impl Time {
    /// The time with this number, or `None` where it is above the greatest. Takes no memory.
    pub fn new(number: u64) -> Option<Time>
        ensures { SomeIff result (number < 2 ^ 63) number }
    {
        if number < 1 << 63 {
            Some(Time { number })
        } else {
            None
        }
    }

    /// The first time. Takes no memory.
    pub fn zero() -> Time
        ensures { result ≡ 0 }
    {
        Time { number: 0 }
    }

    /// The number of the time. Takes no memory.
    pub fn number(self) -> u64
        ensures value { result ≡ self }
        ensures range { self < 2 ^ 63 }
    {
        self.number
    }

    /// The time `n` before this one, but not before the first. Takes no memory.
    pub fn back(self, n: u64) -> Time
        ensures { result ≡ self - n }
    {
        Time {
            number: self.number.saturating_sub(n),
        }
    }
}

impl fmt::Display for Time {
    ghost output = { λ t. Some (decimal t) };

    fn fmt<W: fmt::Write>(&self, f: &mut fmt::Formatter<W>) -> fmt::Result {
        let number = self.number;
        write!(f, "{number}")
    }
}
