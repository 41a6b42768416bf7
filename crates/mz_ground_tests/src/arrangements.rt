//! What no clause says: an arrangement worked by hand, and that calls succeed.
ghost use Rattle.std.specs.Prelude.{◌≡◌, ◌≤◌, [], IfOk, OnOk};
ghost use Rattle.mz_bag.specs.Mass.{IsLight};
ghost use Rattle.mz_updates.specs.Contents.{weights, IsBefore, IsFrom};
ghost use Rattle.mz_arrange.specs.Arranged.{IsInserted};

use crate::bags::row;
use crate::updates::time;
use mz_arrange::Arrangement;
use mz_time::Time;
use mz_updates::Updates;
use mz_value::{Datum, Row};
use std::alloc::{AllocError, Global};
use std::process::Abort;
use std::test::Fail;

fn key(alloc: Global, number: i32) -> Result<Row, AllocError> {
    Ok(Row::from_vec(vec![in alloc; Datum::Int(number)]?))
}

// A row is put in at 1 and at 3, and goes at 5.
fn changes(rt: &impl Abort, alloc: Global) -> Result<Updates, AllocError>
    ensures light { IfOk result (λ updates. IsLight (weights updates)) }
    ensures from { IfOk result (λ updates. IsFrom 1 updates) }
    ensures before { IfOk result (λ updates. IsBefore 6 updates) }
{
    let mut updates = Updates::empty(alloc);
    updates.push(row(alloc, 1, "a")?, time(rt, 1), 1)?;
    updates.push(row(alloc, 1, "a")?, time(rt, 3), 1)?;
    updates.push(row(alloc, 1, "a")?, time(rt, 5), -2)?;
    Ok(updates)
}

// The arrangement of these.
fn arranged(rt: &impl Abort, alloc: Global) -> Result<Arrangement, AllocError>
    ensures since { IfOk result (λ arrangement. arrangement.since ≡ 1) }
    ensures upper { IfOk result (λ arrangement. arrangement.upper ≡ 6) }
{
    let mut arrangement = Arrangement::at(alloc, time(rt, 1));
    let updates = changes(rt, alloc)?;
    arrangement.insert(updates, time(rt, 6))?;
    Ok(arrangement)
}

// Lets the upper move, where nothing changes.
fn advance(arrangement: &mut Arrangement, alloc: Global, upper: Time) -> Result<(), AllocError>
    requires { arrangement.old.upper ≤ upper }
    ensures { OnOk result (IsInserted [] upper arrangement.old arrangement.new) }
{
    let _since = arrangement.since();
    let none = Updates::empty(alloc);
    arrangement.insert(none, upper)
}

// The same, readable from 4 on, and folded.
fn folded(rt: &impl Abort, alloc: Global) -> Result<Arrangement, AllocError>
    ensures since { IfOk result (λ arrangement. arrangement.since ≡ 4) }
    ensures upper { IfOk result (λ arrangement. arrangement.upper ≡ 7) }
{
    let mut arrangement = arranged(rt, alloc)?;
    arrangement.allow(time(rt, 4));
    advance(&mut arrangement, alloc, time(rt, 7))?;
    Ok(arrangement)
}

#[test]
fn rows_are_there_till_they_go(rt: HostRuntime) -> Result<(), Fail> {
    let arrangement = arranged(&rt, rt.alloc())?;
    let row = row(rt.alloc(), 1, "a")?;
    assert_eq!(rt; arrangement.read(time(&rt, 2))?.get(&row), 1);
    assert_eq!(rt; arrangement.read(time(&rt, 4))?.get(&row), 2);
    assert!(rt; arrangement.read(time(&rt, 5))?.is_empty());
    Ok(())
}

#[test]
fn a_key_finds_the_rows_that_begin_with_it(rt: HostRuntime) -> Result<(), Fail> {
    let arrangement = arranged(&rt, rt.alloc())?;
    let row = row(rt.alloc(), 1, "a")?;
    let found = arrangement.seek(&key(rt.alloc(), 1)?, time(&rt, 4))?;
    assert_eq!(rt; found.get(&row), 2);
    assert_eq!(rt; found.len(), 1);
    Ok(())
}

#[test]
fn a_key_finds_nothing_else(rt: HostRuntime) -> Result<(), Fail> {
    let arrangement = arranged(&rt, rt.alloc())?;
    let gone = arrangement.seek(&key(rt.alloc(), 1)?, time(&rt, 5))?;
    assert!(rt; gone.is_empty());
    let none = arrangement.seek(&key(rt.alloc(), 2)?, time(&rt, 4))?;
    assert!(rt; none.is_empty());
    Ok(())
}

#[test]
fn the_rows_stay_from_the_since_on(rt: HostRuntime) -> Result<(), Fail> {
    let arrangement = folded(&rt, rt.alloc())?;
    let row = row(rt.alloc(), 1, "a")?;
    assert_eq!(rt; arrangement.since(), time(&rt, 4));
    assert_eq!(rt; arrangement.upper(), time(&rt, 7));
    assert_eq!(rt; arrangement.read(time(&rt, 4))?.get(&row), 2);
    assert!(rt; arrangement.read(time(&rt, 5))?.is_empty());
    Ok(())
}

#[test]
fn a_key_finds_what_is_folded(rt: HostRuntime) -> Result<(), Fail> {
    let arrangement = folded(&rt, rt.alloc())?;
    let row = row(rt.alloc(), 1, "a")?;
    let found = arrangement.seek(&key(rt.alloc(), 1)?, time(&rt, 4))?;
    assert_eq!(rt; found.get(&row), 2);
    let gone = arrangement.seek(&key(rt.alloc(), 1)?, time(&rt, 5))?;
    assert!(rt; gone.is_empty());
    Ok(())
}
