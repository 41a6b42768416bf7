//! What no clause says: times worked by hand, and that room is made where there is memory.
ghost use Rattle.std.specs.Prelude.{◌≡◌};

use mz_counted::Counted;
use mz_time::{Frontier, Time};
use std::process::Abort;
use std::test::Fail;

/// The time of this number.
pub fn time(rt: &impl Abort, number: u64) -> Time
    ensures { result ≡ number }
{
    Time::new(number).expect(rt, "a time")
}

// Takes out a time that is there.
fn remove(rt: &impl Abort, counted: &mut Counted, t: Time) {
    let there = counted.count(t);
    assert!(rt; there > 0);
    counted.remove(t);
}

#[test]
fn the_least_goes_up(rt: HostRuntime) -> Result<(), Fail> {
    let mut counted = Counted::empty(rt.alloc());
    counted.reserve(3)?;
    let (five, seven) = (time(&rt, 5), time(&rt, 7));
    counted.insert(five);
    counted.insert(seven);
    counted.insert(five);
    assert_eq!(rt; counted.count(five), 2);
    assert_eq!(rt; counted.total(), 3);
    assert_eq!(rt; counted.least(), Frontier::At(five));
    remove(&rt, &mut counted, five);
    assert_eq!(rt; counted.least(), Frontier::At(five));
    remove(&rt, &mut counted, five);
    assert_eq!(rt; counted.least(), Frontier::At(seven));
    remove(&rt, &mut counted, seven);
    assert_eq!(rt; counted.least(), Frontier::Done);
    Ok(())
}

#[test]
fn without_room_the_times_stay(rt: HostRuntime) -> Result<(), Fail> {
    let mut counted = Counted::empty(rt.alloc());
    counted.reserve(1)?;
    let five = time(&rt, 5);
    counted.insert(five);
    let no_room = counted.reserve(usize::MAX).is_err();
    assert!(rt; no_room);
    assert_eq!(rt; counted.total(), 1);
    assert_eq!(rt; counted.least(), Frontier::At(five));
    Ok(())
}
