//! What no clause says: a list of updates worked by hand, and that calls succeed.
ghost use Rattle.std.specs.Prelude.{◌≡◌, IfOk};
ghost use Rattle.mz_bag.specs.Mass.{IsLight};
ghost use Rattle.mz_updates.specs.Contents.{weights, FitsFrom};

use mz_time::Time;
use mz_updates::Updates;
use mz_value::{Datum, Row, TryCopy};
use std::alloc::{AllocError, Global};
use std::process::Abort;
use std::test::Fail;

/// The time of this number.
pub fn time(rt: &impl Abort, number: u64) -> Time
    ensures { result ≡ number }
{
    Time::new(number).expect(rt, "a time")
}

fn row(alloc: Global) -> Result<Row, AllocError> {
    Ok(Row::from_vec(vec![in alloc; Datum::Int(7)]?))
}

// A row is put in at 1 and at 3, and goes at 5.
fn three(rt: &impl Abort, alloc: Global) -> Result<Updates, AllocError>
    ensures { IfOk result (λ updates. IsLight (weights updates)) }
{
    let mut updates = Updates::empty(alloc);
    updates.push(row(alloc)?, time(rt, 1), 1)?;
    updates.push(row(alloc)?, time(rt, 3), 1)?;
    updates.push(row(alloc)?, time(rt, 5), -2)?;
    Ok(updates)
}

// The same, moved up to 4 and added up.
fn folded(rt: &impl Abort, alloc: Global) -> Result<Updates, AllocError>
    ensures { IfOk result (λ updates. FitsFrom 4 updates) }
{
    let mut updates = three(rt, alloc)?;
    updates.compact(time(rt, 4));
    updates.consolidate();
    Ok(updates)
}

#[test]
fn contents_are_sums_up_to_a_time(rt: HostRuntime) -> Result<(), Fail> {
    let updates = three(&rt, rt.alloc())?;
    let row = row(rt.alloc())?;
    assert_eq!(rt; updates.contents(time(&rt, 4))?.get(&row), 2);
    assert!(rt; updates.contents(time(&rt, 5))?.is_empty());
    Ok(())
}

#[test]
fn between_is_from_the_first_and_below_the_second(rt: HostRuntime) -> Result<(), Fail> {
    let updates = three(&rt, rt.alloc())?;
    let between = updates.between(time(&rt, 3), time(&rt, 5))?;
    assert_eq!(rt; between.len(), 1);
    assert_eq!(rt; between.as_slice().first(), updates.as_slice().get(1));
    assert_eq!(rt; updates.try_copy(rt.alloc())?.into_vec().len(), 3);
    Ok(())
}

#[test]
fn what_is_folded_has_one_diff_a_time(rt: HostRuntime) -> Result<(), Fail> {
    let updates = folded(&rt, rt.alloc())?;
    assert_eq!(rt; updates.len(), 2);
    assert!(rt; !updates.is_empty());
    let at_4 = updates.contents(time(&rt, 4))?;
    assert_eq!(rt; at_4.get(&row(rt.alloc())?), 2);
    assert!(rt; updates.contents(time(&rt, 5))?.is_empty());
    Ok(())
}
