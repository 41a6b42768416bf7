//! Policies: how much of its past a collection keeps for its own sake.
ghost use Rattle.std.specs.Prelude.{◌≡◌, min};
ghost use Rattle.mz_statement.specs.Statement.{IsKeep};
ghost use Rattle.mz_rules.specs.Policy.{capability as capability_of};

use mz_statement::Keep;
use mz_time::Time;
use std::marker::Model;

/// A policy within its limits.
#[derive(Clone, Copy)]
pub struct Policy {
    keep: Keep,
}

impl Model for Policy {
    ghost use Rattle.mz_statement.specs.declared.statement.Keep.{Keep};
    ghost use Rattle.mz_statement.specs.Statement.{IsKeep};

    ghost Value = { Keep };

    ghost view = { λ p. p.keep };

    ghost invariant = { λ p. IsKeep p.keep };

    ghost inverse = { λ keep. record { keep = keep } };
}

impl Policy {
    /// The policy that keeps this much. Takes no memory.
    pub fn of(keep: Keep) -> Policy
        requires { IsKeep keep }
        ensures { result ≡ keep }
    {
        Policy { keep }
    }

    /// How much it keeps. Takes no memory.
    pub fn keep(&self) -> Keep
        ensures value { result ≡ self.now }
        ensures range { IsKeep self.now }
    {
        self.keep
    }

    /// The time that the policy wants kept of a collection that has come up to `upper`, where `old` was kept before. Takes no memory.
    pub fn capability(&self, upper: Time, old: Time) -> Time
        ensures { result ≡ capability_of self.now upper old }
    {
        kept_time(self.keep, upper, old)
    }
}

/// The same for a policy that is kept as it was said. Takes no memory.
pub fn kept_time(keep: Keep, upper: Time, old: Time) -> Time
    ensures { result ≡ capability_of keep upper old }
{
    match keep {
        Keep::Lag(times) => upper.back(times),
        Keep::From(first) => least(upper.back(1), first),
        Keep::Stay => old,
    }
}

// The lesser of the two.
fn least(time: Time, first: u64) -> Time
    ensures { result ≡ min first time }
{
    time.back(time.number().saturating_sub(first))
}
