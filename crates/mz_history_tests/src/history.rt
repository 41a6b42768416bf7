//! What no clause says: that streams are told where there is memory, and are as before where there is none; a reduced list and a mark
//! worked by hand.
ghost use Rattle.std.specs.Prelude.{◌≡◌};

use mz_history::{Commands, History, reduce};
use mz_plan::{Command, Plan};
use mz_time::{Frontier, Time};
use mz_value::Name;
use std::alloc::{AllocError, Global};
use std::process::Abort;
use std::test::Fail;

// The time of this number.
fn time(rt: &impl Abort, number: u64) -> Time
    ensures { result ≡ number }
{
    Time::new(number).expect(rt, "a time")
}

// The name of a replica.
fn replica(rt: &impl Abort, alloc: Global, text: &str) -> Result<Name, AllocError> {
    let is_name = mz_value::is_name(text.as_bytes());
    assert!(rt; is_name);
    Name::new(alloc, text.as_bytes())
}

// A replica joins that isn't live, and is told these lines.
fn join(
    rt: &impl Abort,
    history: &mut History,
    name: &Name,
    reduced: Commands,
) -> Result<u64, AllocError> {
    let is_live = history.is_live(name);
    assert!(rt; !is_live);
    history.join(name, reduced)
}

// A replica joins that is told nothing yet. Where there is no memory for it, it isn't live, and joins once more.
fn join_anew(
    rt: &impl Abort,
    alloc: Global,
    history: &mut History,
    name: &Name,
) -> Result<u64, AllocError> {
    if let Ok(incarnation) = join(rt, history, name, Commands::from_vec(Vec::new(alloc))) {
        return Ok(incarnation);
    }
    join(rt, history, name, Commands::from_vec(Vec::new(alloc)))
}

// All lines of a replica that none has asked for yet.
fn lines(rt: &impl Abort, history: &History, name: &Name) -> Result<Commands, AllocError> {
    let taken = history.kept(name);
    assert!(rt; taken <= history.length(name));
    history.from(name, taken)
}

// A collection is made as of a time.
fn creation(rt: &impl Abort, collection: u64, as_of: u64) -> Command {
    Command::Create {
        collection,
        plan: Plan::Table(1),
        as_of: time(rt, as_of),
    }
}

// How many lines two replicas have, and what the first is told of a collection.
fn told(
    history: &History,
    replicas: (&Name, &Name),
    collection: u64,
) -> (u64, u64, Option<Frontier>) {
    let (first, second) = replicas;
    (
        history.length(first),
        history.length(second),
        history.told(first, collection),
    )
}

// All are told that a collection is made. Where there is no memory for it, none of two is told so, and all are told once more.
fn make(
    rt: &impl Abort,
    history: &mut History,
    replicas: (&Name, &Name),
    collection: u64,
    as_of: u64,
) -> Result<(), AllocError> {
    let before = told(history, replicas, collection);
    if history.push(creation(rt, collection, as_of)).is_ok() {
        return Ok(());
    }
    assert_eq!(rt; told(history, replicas, collection), before);
    history.push(creation(rt, collection, as_of))
}

// What may be forgotten of a collection.
fn allowance(collection: u64, since: &Frontier) -> Command {
    Command::Allow {
        collection,
        since: *since,
    }
}

// One is told what it may forget. Where there is no memory for it, none of two is told so, and it is told once more.
fn allow(
    rt: &impl Abort,
    history: &mut History,
    replicas: (&Name, &Name),
    collection: u64,
    since: &Frontier,
) -> Result<(), AllocError> {
    let before = told(history, replicas, collection);
    if history
        .push_one(replicas.0, allowance(collection, since))
        .is_ok()
    {
        return Ok(());
    }
    assert_eq!(rt; told(history, replicas, collection), before);
    history.push_one(replicas.0, allowance(collection, since))
}

// A collection is made, a peek is asked for and ended, and some of the past may be forgotten.
fn tell(
    rt: &impl Abort,
    history: &mut History,
    replicas: (&Name, &Name),
    since: &Frontier,
) -> Result<(), AllocError> {
    make(rt, history, replicas, 2, 1)?;
    history.push(Command::Peek {
        peek: 1,
        collection: 2,
        time: time(rt, 2),
    })?;
    history.push(Command::Retire { peek: 1 })?;
    allow(rt, history, replicas, 2, since)
}

// What is left of the lines of a replica.
fn left_of(
    rt: &impl Abort,
    alloc: Global,
    history: &History,
    name: &Name,
) -> Result<Commands, AllocError> {
    let lines = lines(rt, history, name)?;
    reduce(alloc, &lines)
}

// The second replica joins with what is left of what the first was told.
fn reduced(
    rt: &impl Abort,
    alloc: Global,
    history: &mut History,
    replicas: (&Name, &Name),
) -> Result<(), AllocError> {
    let (first, second) = replicas;
    let since = Frontier::At(time(rt, 2));
    assert_eq!(rt; join_anew(rt, alloc, history, first)?, 1);
    tell(rt, history, replicas, &since)?;
    assert_eq!(rt; told(history, replicas, 2), (4, 0, Some(since)));
    assert_eq!(rt; history.told(first, 3), None);
    let left = left_of(rt, alloc, history, first)?;
    assert_eq!(rt; join(rt, history, second, left)?, 1);
    assert_eq!(rt; history.length(second), 1);
    assert_eq!(rt; history.told(second, 2), Some(since));
    Ok(())
}

#[test]
fn a_reduced_list_has_what_is_left(rt: HostRuntime) -> Result<(), Fail> {
    let alloc = rt.alloc();
    let (first, second) = (replica(&rt, alloc, "r1")?, replica(&rt, alloc, "r2")?);
    let mut history = History::empty(alloc);
    reduced(&rt, alloc, &mut history, (&first, &second))?;
    Ok(())
}

// Another replica joins, and all are told more.
fn grow(
    rt: &impl Abort,
    alloc: Global,
    history: &mut History,
    replicas: (&Name, &Name),
) -> Result<(), AllocError> {
    assert_eq!(rt; join_anew(rt, alloc, history, replicas.1)?, 1);
    make(rt, history, replicas, 3, 4)?;
    allow(rt, history, replicas, 2, &Frontier::Done)?;
    assert_eq!(rt; told(history, replicas, 2), (3, 1, Some(Frontier::Done)));
    Ok(())
}

// All of that is taken back, and it could come again.
fn taken_back(
    rt: &impl Abort,
    alloc: Global,
    history: &mut History,
    replicas: (&Name, &Name),
) -> Result<(), AllocError> {
    let (first, second) = replicas;
    assert_eq!(rt; join_anew(rt, alloc, history, first)?, 1);
    make(rt, history, replicas, 2, 1)?;
    history.mark();
    grow(rt, alloc, history, replicas)?;
    history.back();
    let one = Frontier::At(time(rt, 1));
    assert_eq!(rt; told(history, replicas, 2), (1, 0, Some(one)));
    assert_eq!(rt; history.told(first, 3), None);
    history.leave(first);
    assert_eq!(rt; join_anew(rt, alloc, history, first)?, 2);
    assert_eq!(rt; join_anew(rt, alloc, history, second)?, 1);
    Ok(())
}

#[test]
fn what_is_told_is_taken_back(rt: HostRuntime) -> Result<(), Fail> {
    let alloc = rt.alloc();
    let (first, second) = (replica(&rt, alloc, "r1")?, replica(&rt, alloc, "r2")?);
    let mut history = History::empty(alloc);
    taken_back(&rt, alloc, &mut history, (&first, &second))?;
    Ok(())
}
