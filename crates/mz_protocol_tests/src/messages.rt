//! What no clause says: that feeds and packets are copied where there is memory.

use crate::peeks::time;
use mz_bag::CountedRows;
use mz_plan::{Answer, Command, Place, Plan};
use mz_protocol::{Answers, Batches, Commands, Feed, Frontiers, Packet};
use mz_time::Frontier;
use mz_updates::{Batch, Updates};
use mz_value::{Datum, Name, Row};
use std::alloc::{AllocError, Global};
use std::process::Abort;
use std::test::Fail;

// The name of a replica.
fn replica(rt: &impl Abort, alloc: Global) -> Result<Name, AllocError> {
    let is_name = mz_value::is_name(b"r1");
    assert!(rt; is_name);
    Name::new(alloc, b"r1")
}

// The rows with one row, twice.
fn one_row(alloc: Global) -> Result<CountedRows, AllocError> {
    let row = Row::from_vec(vec![in alloc; Datum::Int(7)]?);
    Ok(CountedRows::from_vec(vec![in alloc; (row, 2)]?))
}

// The answers to two peeks, the first with a row and the second without.
fn answers(alloc: Global) -> Result<Answers, AllocError> {
    let some = Answer {
        peek: 5,
        rows: one_row(alloc)?,
    };
    let none = Answer {
        peek: 6,
        rows: CountedRows::from_vec(Vec::new(alloc)),
    };
    Ok(Answers::from_vec(vec![in alloc; some, none]?))
}

// A packet with both answers.
fn packet(rt: &impl Abort, alloc: Global) -> Result<Packet, AllocError> {
    let frontiers = Frontiers::from_vec(vec![in alloc; (4, time(rt, 9))]?);
    Ok(Packet {
        replica: replica(rt, alloc)?,
        incarnation: 1,
        turn: 2,
        taken: 3,
        ready: 9,
        frontiers,
        answers: answers(alloc)?,
    })
}

// A line of each kind.
fn commands(rt: &impl Abort, alloc: Global) -> Result<Commands, AllocError> {
    let create = Command::Create {
        collection: 4,
        plan: Plan::Table(1),
        as_of: time(rt, 2),
    };
    let peek = Command::Peek {
        peek: 5,
        collection: 4,
        time: time(rt, 3),
    };
    let allow = Command::Allow {
        collection: 4,
        since: Frontier::Done,
    };
    let retire = Command::Retire { peek: 5 };
    Ok(Commands::from_vec(vec![in alloc; create, peek, allow, retire]?))
}

// The batch of a table with one update.
fn batches(rt: &impl Abort, alloc: Global) -> Result<Batches, AllocError> {
    let mut updates = Updates::empty(alloc);
    updates.append(time(rt, 3), one_row(alloc)?)?;
    let batch = Batch {
        table: 1,
        lower: 3,
        to: time(rt, 3),
        since: time(rt, 2),
        whole: false,
        updates,
    };
    Ok(Batches::from_vec(vec![in alloc; batch]?))
}

#[test]
fn a_packet_is_copied(rt: HostRuntime) -> Result<(), Fail> {
    let alloc = rt.alloc();
    let packet = packet(&rt, alloc)?;
    let copy = packet.try_copy(alloc)?;
    let same = copy.frontiers == packet.frontiers;
    assert!(rt; same);
    for (given, copied) in packet
        .answers
        .as_slice()
        .iter()
        .zip(copy.answers.as_slice())
    {
        assert_eq!(rt; copied.peek, given.peek);
        let same = copied.rows == given.rows;
        assert!(rt; same);
    }
    assert_eq!(rt; copy.answers.len(), 2);
    Ok(())
}

#[test]
fn a_feed_is_copied(rt: HostRuntime) -> Result<(), Fail> {
    let alloc = rt.alloc();
    let place = Place {
        incarnation: 1,
        turn: 2,
        taken: 0,
        ready: 3,
    };
    let feed = Feed {
        replica: replica(&rt, alloc)?,
        place,
        commands: commands(&rt, alloc)?,
        batches: batches(&rt, alloc)?,
        to: time(&rt, 3),
    };
    let copy = feed.try_copy(alloc)?;
    assert_eq!(rt; copy.place, place);
    assert_eq!(rt; copy.commands.len(), 4);
    assert_eq!(rt; copy.batches.len(), 1);
    Ok(())
}
