//! What no clause says: that holds are taken where there is memory, and are as before where there is none; policies and holds worked by hand.

use crate::counted::time;
use mz_holds::{HoldTable, Policy};
use mz_statement::Keep;
use mz_time::{Frontier, Time};
use std::alloc::AllocError;
use std::process::Abort;
use std::test::Fail;

// Takes a hold. Where there is no memory for it, the holds are as before, and it is taken once more.
fn acquire(
    rt: &impl Abort,
    holds: &mut HoldTable,
    collection: u64,
    t: Time,
) -> Result<u64, AllocError> {
    let (live, total) = (holds.live().len(), holds.total(collection));
    if let Ok(hold) = holds.acquire(collection, t) {
        return Ok(hold);
    }
    assert_eq!(rt; holds.live().len(), live);
    assert_eq!(rt; holds.total(collection), total);
    holds.acquire(collection, t)
}

// The same for a session.
fn acquire_for(
    rt: &impl Abort,
    holds: &mut HoldTable,
    session: u64,
    collection: u64,
    t: Time,
) -> Result<u64, AllocError> {
    let (live, total) = (holds.live().len(), holds.total(collection));
    if let Ok(hold) = holds.acquire_for(session, collection, t) {
        return Ok(hold);
    }
    assert_eq!(rt; holds.live().len(), live);
    assert_eq!(rt; holds.total(collection), total);
    holds.acquire_for(session, collection, t)
}

#[test]
fn holds_are_counted_and_taken_back(rt: HostRuntime) -> Result<(), Fail> {
    let mut holds = HoldTable::empty(rt.alloc());
    let (five, seven) = (time(&rt, 5), time(&rt, 7));
    assert_eq!(rt; acquire(&rt, &mut holds, 1, seven)?, 1);
    assert_eq!(rt; acquire(&rt, &mut holds, 1, five)?, 2);
    assert_eq!(rt; acquire_for(&rt, &mut holds, 9, 3, five)?, 3);
    assert_eq!(rt; holds.count(1, five), 1);
    assert_eq!(rt; holds.total(1), 2);
    assert_eq!(rt; holds.least(1), Frontier::At(five));
    assert_eq!(rt; holds.least(2), Frontier::Done);
    holds.mark();
    assert_eq!(rt; acquire(&rt, &mut holds, 2, five)?, 4);
    assert_eq!(rt; acquire_for(&rt, &mut holds, 9, 1, five)?, 5);
    assert_eq!(rt; holds.least(2), Frontier::At(five));
    assert_eq!(rt; holds.count(1, five), 2);
    holds.back();
    assert_eq!(rt; holds.least(2), Frontier::Done);
    assert_eq!(rt; holds.count(1, five), 1);
    assert_eq!(rt; holds.live().len(), 3);
    assert_eq!(rt; acquire(&rt, &mut holds, 2, seven)?, 4);
    Ok(())
}

#[test]
fn policies_keep_a_part_of_the_past(rt: HostRuntime) {
    for (keep, upper, old, wanted) in [
        (Keep::Lag(3), 2, 0, 0),
        (Keep::Lag(3), 6, 0, 3),
        (Keep::From(9), 5, 0, 4),
        (Keep::From(9), 0, 0, 0),
        (Keep::From(2), 5, 0, 2),
        (Keep::Stay, 5, 3, 3),
    ] {
        let kept = mz_holds::kept_time(keep, time(&rt, upper), time(&rt, old));
        assert_eq!(rt; kept.number(), wanted, "{keep:?} at {upper}");
    }
    let greatest = Policy::of(Keep::Lag(4_294_967_295));
    assert_eq!(rt; greatest.capability(time(&rt, 5), time(&rt, 0)).number(), 0);
}
