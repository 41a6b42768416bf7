//! Values from outside, and printed text.
use super::*;
use std::test::Fail;

const GREATEST: u64 = 9_223_372_036_854_775_807;

/// The frontier at the time with this number.
fn at(number: u64) -> Frontier {
    Time::new(number).map_or(Frontier::Done, Frontier::At)
}

#[test]
fn times_end_at_the_greatest(rt: HostRuntime) -> Result<(), Fail> {
    let greatest = Time::new(GREATEST).ok_or("the greatest time")?;
    assert_eq!(rt; greatest.number(), GREATEST);
    assert_eq!(rt; Time::new(GREATEST + 1), None);
    let text = format!(in rt.alloc(); "{greatest}")?;
    assert_eq!(rt; text.as_str(), "9223372036854775807");
    Ok(())
}

#[test]
fn done_is_last(rt: HostRuntime) {
    for (lesser, greater) in [
        (at(3), at(4)),
        (at(4), at(GREATEST)),
        (at(GREATEST), Frontier::Done),
    ] {
        assert!(rt; lesser.le(&greater), "{lesser:?} {greater:?}");
        assert!(rt; !greater.le(&lesser), "{lesser:?} {greater:?}");
        assert!(rt; lesser < greater, "{lesser:?} {greater:?}");
        assert_eq!(rt; lesser.meet(greater), lesser);
        assert_eq!(rt; greater.meet(lesser), lesser);
        assert_eq!(rt; lesser.join(greater), greater);
        assert_eq!(rt; greater.join(lesser), greater);
    }
}

#[test]
fn a_frontier_passes_what_is_before_it(rt: HostRuntime) {
    let first = Time::zero();
    assert!(rt; !at(0).passes(first));
    assert!(rt; at(1).passes(first));
    assert!(rt; Frontier::Done.passes(first));
}

#[test]
fn steps_back_stop_at_the_first_time(rt: HostRuntime) {
    for (number, n, back) in [(10, 3, 7), (10, 10, 0), (10, 11, 0), (0, GREATEST, 0)] {
        assert_eq!(rt; at(number).step_back(n), at(back), "{n} before {number}");
    }
    assert_eq!(rt; Frontier::Done.step_back(3), Frontier::Done);
}
