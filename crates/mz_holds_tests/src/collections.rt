//! What no clause says: that calls succeed where there is memory, and leave all as before where there is none; sinces worked by hand.
ghost use Rattle.std.specs.Prelude.{◌≡◌, [], IfOk};
ghost use Rattle.mz_time.specs.declared.frontier.Frontier.TheVariants.{At};
ghost use Rattle.mz_time.specs.Frontier.{Le};
ghost use Rattle.mz_rules.specs.Since.{since_of as since_under};

use crate::counted::time;
use mz_collections::{Collections, NewCollection};
use mz_plan::Plan;
use mz_rules::{CollectionKind, Numbers};
use mz_statement::Keep;
use mz_time::{Frontier, Time};
use mz_value::Text;
use std::alloc::{AllocError, Global};
use std::process::Abort;
use std::test::Fail;

// A table of this number.
fn table(alloc: Global, item: u64, as_of: Time) -> Result<NewCollection, AllocError>
    ensures { IfOk result (λ new. new.inputs ≡ []) }
{
    Ok(NewCollection {
        name: Text::from_string(String::from_str(alloc, "t")?),
        kind: CollectionKind::Table,
        item,
        cluster: 0,
        plan: Plan::Table(item),
        inputs: Numbers::from_vec(Vec::new(alloc)),
        as_of,
        policy: Some(Keep::Lag(1)),
    })
}

// Makes a table. Where there is no memory for it, no collection is there that wasn't, and it is made once more.
fn create(
    rt: &impl Abort,
    alloc: Global,
    collections: &mut Collections,
    item: u64,
    as_of: u64,
) -> Result<u64, AllocError> {
    let all = collections.all().len();
    if let Ok(number) = collections.create(table(alloc, item, time(rt, as_of))?) {
        return Ok(number);
    }
    assert_eq!(rt; collections.all().len(), all);
    collections.create(table(alloc, item, time(rt, as_of))?)
}

// That a collection was made and is readable at a time.
fn reads(rt: &impl Abort, collections: &Collections, number: u64, t: Time)
    ensures { Le (since_under number collections.now.present.all) (At t) }
{
    let low = 0 < number;
    assert!(rt; low);
    let high = number <= collections.all().len() as u64;
    assert!(rt; high);
    let readable = collections.since(number).le(&Frontier::At(t));
    assert!(rt; readable);
}

// Takes a hold. Where there is no memory for it, the holds are as before, and it is taken once more.
fn acquire(
    rt: &impl Abort,
    collections: &mut Collections,
    number: u64,
    at: u64,
) -> Result<u64, AllocError> {
    let t = time(rt, at);
    reads(rt, collections, number, t);
    let total = collections.total(number);
    if let Ok(hold) = collections.acquire(number, t) {
        return Ok(hold);
    }
    assert_eq!(rt; collections.total(number), total);
    collections.acquire(number, t)
}

// The same for a session.
fn acquire_for(
    rt: &impl Abort,
    collections: &mut Collections,
    session: u64,
    number: u64,
    at: u64,
) -> Result<u64, AllocError> {
    let t = time(rt, at);
    reads(rt, collections, number, t);
    let total = collections.total(number);
    if let Ok(hold) = collections.acquire_for(session, number, t) {
        return Ok(hold);
    }
    assert_eq!(rt; collections.total(number), total);
    collections.acquire_for(session, number, t)
}

// A peek waits. Where there is no memory for it, it is asked for once more.
fn add_peek(
    rt: &impl Abort,
    collections: &mut Collections,
    number: u64,
    at: u64,
) -> Result<(), AllocError> {
    let t = time(rt, at);
    reads(rt, collections, number, t);
    if collections.add_peek(number, t).is_ok() {
        return Ok(());
    }
    collections.add_peek(number, t)
}

// The since of a collection, of which nothing is kept for its own sake any more.
fn since_alone(rt: &impl Abort, collections: &mut Collections, number: u64) -> Frontier {
    let low = 0 < number;
    assert!(rt; low);
    let high = number <= collections.all().len() as u64;
    assert!(rt; high);
    collections.let_go(number);
    collections.settle_sinces();
    match collections.all().get(number as usize - 1) {
        Some(one) => one.since,
        None => Frontier::Done,
    }
}

// Holds and peeks keep two tables readable.
fn kept(rt: &impl Abort, alloc: Global, collections: &mut Collections) -> Result<(), AllocError> {
    assert_eq!(rt; create(rt, alloc, collections, 1, 0)?, 1);
    assert_eq!(rt; create(rt, alloc, collections, 2, 4)?, 2);
    assert_eq!(rt; acquire(rt, collections, 1, 3)?, 1);
    add_peek(rt, collections, 2, 5)?;
    let (three, five) = (time(rt, 3), time(rt, 5));
    assert_eq!(rt; since_alone(rt, collections, 1), Frontier::At(three));
    assert_eq!(rt; since_alone(rt, collections, 2), Frontier::At(five));
    Ok(())
}

#[test]
fn holds_and_peeks_keep_the_past(rt: HostRuntime) -> Result<(), Fail> {
    let mut collections = Collections::empty(rt.alloc());
    kept(&rt, rt.alloc(), &mut collections)?;
    Ok(())
}

// A table with a hold.
fn begin(rt: &impl Abort, alloc: Global, collections: &mut Collections) -> Result<(), AllocError> {
    assert_eq!(rt; create(rt, alloc, collections, 1, 3)?, 1);
    assert_eq!(rt; acquire(rt, collections, 1, 7)?, 1);
    Ok(())
}

// Another table, further holds and a peek.
fn grow(rt: &impl Abort, alloc: Global, collections: &mut Collections) -> Result<(), AllocError> {
    assert_eq!(rt; create(rt, alloc, collections, 2, 9)?, 2);
    assert_eq!(rt; acquire(rt, collections, 1, 4)?, 2);
    assert_eq!(rt; acquire_for(rt, collections, 9, 1, 5)?, 3);
    add_peek(rt, collections, 1, 6)
}

// All of that is taken back, and it could come again.
fn taken_back(
    rt: &impl Abort,
    alloc: Global,
    collections: &mut Collections,
) -> Result<(), AllocError> {
    begin(rt, alloc, collections)?;
    collections.mark();
    grow(rt, alloc, collections)?;
    collections.back();
    assert_eq!(rt; collections.all().len(), 1);
    assert_eq!(rt; collections.total(1), 1);
    collections.mark();
    grow(rt, alloc, collections)?;
    collections.back();
    Ok(())
}

#[test]
fn what_came_is_taken_back(rt: HostRuntime) -> Result<(), Fail> {
    let mut collections = Collections::empty(rt.alloc());
    taken_back(&rt, rt.alloc(), &mut collections)?;
    let seven = time(&rt, 7);
    assert_eq!(rt; since_alone(&rt, &mut collections, 1), Frontier::At(seven));
    Ok(())
}
