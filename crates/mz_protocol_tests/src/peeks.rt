//! What no clause says: that peeks are made where there is memory, and some worked by hand.
ghost use Rattle.std.specs.Prelude.{◌≡◌};

use mz_peeks::PeekTable;
use mz_plan::PendingPeek;
use mz_time::Time;
use std::process::Abort;
use std::test::Fail;

/// The time of this number.
pub fn time(rt: &impl Abort, number: u64) -> Time
    ensures { result ≡ number }
{
    Time::new(number).expect(rt, "a time")
}

#[test]
fn each_peek_leaves_once(rt: HostRuntime) -> Result<(), Fail> {
    let mut peeks = PeekTable::empty(rt.alloc());
    let (five, seven) = (time(&rt, 5), time(&rt, 7));
    assert_eq!(rt; peeks.submit(1, 1, 2, five)?, 1);
    assert_eq!(rt; peeks.submit(2, 4, 3, seven)?, 2);
    assert_eq!(rt; peeks.submit(3, 1, 2, seven)?, 3);
    let second = PendingPeek {
        peek: 2,
        session: 2,
        call: 4,
        collection: 3,
        time: seven,
    };
    assert_eq!(rt; peeks.get(2), Some(second));
    assert_eq!(rt; peeks.finish(2), Some(second));
    assert_eq!(rt; peeks.finish(2), None);
    assert_eq!(rt; peeks.cancel(2, 4), None);
    assert_eq!(rt; peeks.pending().len(), 2);
    Ok(())
}

#[test]
fn peeks_are_taken_back(rt: HostRuntime) -> Result<(), Fail> {
    let mut peeks = PeekTable::empty(rt.alloc());
    let five = time(&rt, 5);
    assert_eq!(rt; peeks.submit(1, 1, 2, five)?, 1);
    peeks.mark();
    assert_eq!(rt; peeks.submit(2, 1, 2, five)?, 2);
    peeks.back();
    assert_eq!(rt; peeks.get(2), None);
    assert_eq!(rt; peeks.submit(3, 1, 2, five)?, 2);
    let cancelled = peeks.cancel(1, 1).map(|waiting| waiting.peek);
    assert_eq!(rt; cancelled, Some(1));
    assert_eq!(rt; peeks.pending().len(), 1);
    Ok(())
}
