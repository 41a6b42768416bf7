//! What no clause says: times and rounds worked by hand, and the texts of faults.
ghost use Rattle.std.specs.Prelude.{◌≡◌, ◌<◌, length, IfOk};

use mz_oracle::{GREATEST_GIVEN, Oracle, Rounds};
use std::alloc::{AllocError, Global};
use std::test::Fail;

#[test]
fn times_rise_past_the_clock(rt: HostRuntime) -> Result<(), Fail> {
    let mut oracle = Oracle::empty();
    for (now, wanted) in [(5, 5), (3, 6), (100, 100), (100, 101)] {
        assert_eq!(rt; oracle.give(now)?.number(), wanted, "at {now}");
    }
    Ok(())
}

#[test]
fn a_time_is_readable_once_it_is_applied(rt: HostRuntime) -> Result<(), Fail> {
    let mut oracle = Oracle::empty();
    let time = oracle.give(7)?;
    assert_eq!(rt; oracle.read().number(), 0);
    oracle.apply(time);
    assert_eq!(rt; oracle.read().number(), 7);
    Ok(())
}

#[test]
fn times_end(rt: HostRuntime) -> Result<(), Fail> {
    let mut oracle = Oracle::empty();
    let last = oracle.give(GREATEST_GIVEN)?;
    assert_eq!(rt; last.number(), 9_223_372_036_854_775_806);
    let Err(spent) = oracle.give(3) else {
        return Err(Fail::from("a time after the greatest"));
    };
    let text = format!(in rt.alloc(); "{spent}")?;
    assert_eq!(rt;
        text.as_str(),
        "no time is left after 9223372036854775806 at 3"
    );
    Ok(())
}

// Rounds in which these items wait.
fn waiting(alloc: Global, items: [u64; 3]) -> Result<Rounds<u64>, AllocError>
    ensures begun { IfOk result (λ rounds. rounds.begun ≡ 0) }
    ensures some { IfOk result (λ rounds. 1 < length rounds.queued) }
{
    let mut rounds = Rounds::fresh(alloc);
    rounds.queue(items[0])?;
    rounds.queue(items[1])?;
    rounds.queue(items[2])?;
    Ok(rounds)
}

#[test]
fn a_round_takes_what_waits(rt: HostRuntime) -> Result<(), Fail> {
    let mut rounds = waiting(rt.alloc(), [3, 1, 2])?;
    assert_eq!(rt; rounds.withdraw(1), 1);
    assert_eq!(rt; rounds.begin()?, 1);
    rounds.queue(4)?;
    assert_eq!(rt; rounds.in_round(), [3, 2].as_slice());
    assert_eq!(rt; rounds.queued(), [4].as_slice());
    Ok(())
}

#[test]
fn one_round_is_open(rt: HostRuntime) -> Result<(), Fail> {
    let mut rounds = waiting(rt.alloc(), [3, 1, 2])?;
    assert_eq!(rt; rounds.open_round(), None);
    rounds.begin()?;
    assert_eq!(rt; rounds.open_round(), Some(1));
    let Err(fault) = rounds.begin() else {
        return Err(Fail::from("a second round"));
    };
    let text = format!(in rt.alloc(); "{fault}")?;
    assert_eq!(rt; text.as_str(), "round 1 is open");
    Ok(())
}
