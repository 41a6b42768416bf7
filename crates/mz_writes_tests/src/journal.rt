//! What no clause says: that calls succeed where there is memory, a history worked by hand, and the texts of faults.

use mz_journal::{Journal, JournalFault, MOST_CALLS};
use mz_log::{CallEntry, FrontierRow, FrontierRows, Reply, SeqReply};
use mz_refusal::Refusal;
use mz_time::Time;
use mz_value::{Listed, Text};
use std::alloc::{AllocError, Global};
use std::process::Abort;
use std::test::Fail;

fn time(number: u64) -> Time {
    Time::new(number).unwrap_or(Time::zero())
}

// Puts the first call of a session down.
fn put(alloc: Global, journal: &mut Journal, session: u64, at: u64) -> Result<(), JournalFault> {
    journal.reserve_call()?;
    journal.put_call(CallEntry {
        session,
        call: 1,
        time: time(at),
        text: Text::from_string(String::new(alloc)),
        reply: None,
    });
    Ok(())
}

// Gives the first call of a session its reply.
fn answer(rt: &impl Abort, journal: &mut Journal, session: u64, at: u64, reply: Reply) {
    let waits = journal.calls().iter().any(|entry| {
        entry.session == session && entry.call == 1 && entry.reply.is_none()
    });
    assert!(rt; waits, "{session}");
    journal.answer(session, 1, time(at), reply);
}

// The calls of the sessions 1, 2 and 65, whose times are these.
fn journal(alloc: Global, times: [u64; 3]) -> Result<Journal, JournalFault> {
    let mut journal = Journal::empty(alloc);
    put(alloc, &mut journal, 1, times[0])?;
    put(alloc, &mut journal, 2, times[1])?;
    put(alloc, &mut journal, 65, times[2])?;
    Ok(journal)
}

// The session of the call at this place, and the time of the call.
fn at(calls: &[CallEntry], place: usize) -> Option<(u64, u64)> {
    match calls.get(place) {
        Some(entry) => Some((entry.session, entry.time.number())),
        None => None,
    }
}

#[test]
fn calls_of_one_time_keep_their_order(rt: HostRuntime) -> Result<(), Fail> {
    let history = journal(rt.alloc(), [3, 1, 3])?.history()?;
    for (place, wanted) in [(0, (2, 1)), (1, (1, 3)), (2, (65, 3))] {
        assert_eq!(rt; at(history.as_slice(), place), Some(wanted), "{place}");
    }
    assert_eq!(rt; history.len(), 3);
    Ok(())
}

#[test]
fn each_call_has_its_own_reply(rt: HostRuntime) -> Result<(), Fail> {
    let mut journal = journal(rt.alloc(), [0, 0, 0])?;
    answer(&rt, &mut journal, 1, 4, Reply::Instant(time(4)));
    answer(&rt, &mut journal, 65, 6, Reply::Instant(time(6)));
    answer(&rt, &mut journal, 2, 5, Reply::Instant(time(5)));
    for (place, wanted) in [(0, (1, 4)), (1, (2, 5)), (2, (65, 6))] {
        assert_eq!(rt; at(journal.calls(), place), Some(wanted), "{place}");
    }
    Ok(())
}

// What stands for the kind of a reply.
fn kind(reply: &Reply) -> u8 {
    match reply {
        Reply::Command(_) => 1,
        Reply::Rows(_, _) => 2,
        Reply::Instant(_) => 3,
        Reply::Frontiers(_, _) => 4,
        Reply::Refused(_) => 5,
        Reply::Cancelled(_) => 6,
    }
}

// The kind of the reply that a copy of a journal has, in which one call has this reply.
fn copied_kind(rt: &impl Abort, alloc: Global, reply: Reply) -> Result<u8, JournalFault> {
    let mut journal = Journal::empty(alloc);
    put(alloc, &mut journal, 1, 0)?;
    answer(rt, &mut journal, 1, 1, reply);
    let copy = journal.try_copy()?;
    match copy.calls() {
        [entry] => Ok(entry.reply.as_ref().map_or(0, kind)),
        _ => Ok(0),
    }
}

// How far a collection is readable.
fn frontiers(alloc: Global) -> Result<FrontierRows, AllocError> {
    let row = FrontierRow {
        id: 1,
        name: Text::from_string(String::from_str(alloc, "kv")?),
        since: time(0),
        upper: time(1),
        holds: 0,
    };
    Ok(FrontierRows::from_vec(vec![in alloc; row]?))
}

#[test]
fn replies_are_copied(rt: HostRuntime) -> Result<(), Fail> {
    let alloc = rt.alloc();
    let created = Reply::Command(SeqReply::Created(1));
    assert_eq!(rt; copied_kind(&rt, alloc, created)?, 1);
    let rows = Reply::Rows(time(1), Listed::from_vec(Vec::new(alloc)));
    assert_eq!(rt; copied_kind(&rt, alloc, rows)?, 2);
    let frontiers = Reply::Frontiers(time(1), frontiers(alloc)?);
    assert_eq!(rt; copied_kind(&rt, alloc, frontiers)?, 4);
    Ok(())
}

#[test]
fn replies_without_rows_are_copied(rt: HostRuntime) -> Result<(), Fail> {
    let alloc = rt.alloc();
    assert_eq!(rt; copied_kind(&rt, alloc, Reply::Instant(time(1)))?, 3);
    assert_eq!(rt;
        copied_kind(&rt, alloc, Reply::Refused(Refusal::Closed))?,
        5
    );
    assert_eq!(rt; copied_kind(&rt, alloc, Reply::Cancelled(time(1)))?, 6);
    Ok(())
}

#[test]
fn faults_have_texts(rt: HostRuntime) -> Result<(), Fail> {
    let full = JournalFault::Full {
        limit: MOST_CALLS as u64,
    };
    assert_eq!(rt;
        format!(in rt.alloc(); "{full}")?.as_str(),
        "there are 1048576 calls"
    );
    let memory = JournalFault::Memory;
    assert_eq!(rt;
        format!(in rt.alloc(); "{memory}")?.as_str(),
        "out of memory"
    );
    Ok(())
}
