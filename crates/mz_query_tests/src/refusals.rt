//! What no clause says: the text of each refusal, worked by hand.

use mz_refusal::{CallFault, Limited, Refusal};
use mz_time::Time;
use mz_value::{Name, Text, is_name};
use std::alloc::{AllocError, Global};
use std::process::Abort;
use std::test::Fail;

fn text(alloc: Global, text: &str) -> Result<Text, AllocError> {
    Ok(Text::from_string(String::from_str(alloc, text)?))
}

fn name(rt: &impl Abort, alloc: Global) -> Result<Name, AllocError> {
    assert!(rt; is_name("kv".as_bytes()));
    Name::new(alloc, "kv".as_bytes())
}

fn time(number: u64) -> Time {
    Time::new(number).unwrap_or(Time::zero())
}

// That a refusal has this number and this text.
fn reads(
    rt: &impl Abort,
    alloc: Global,
    refusal: Refusal,
    number: u64,
    text: &str,
) -> Result<(), AllocError> {
    let written = format!(in alloc; "{refusal}")?;
    assert_eq!(rt; written.as_str(), text);
    assert_eq!(rt; refusal.number(), number);
    Ok(())
}

#[test]
fn refusals_of_texts_and_names_are_read(rt: HostRuntime) -> Result<(), Fail> {
    let alloc = rt.alloc();
    reads(&rt, alloc, Refusal::Syntax { at: 7 }, 1, ": at 7")?;
    reads(&rt, alloc, Refusal::LiteralRange { at: 26 }, 6, ": at 26")?;
    let name = name(&rt, alloc)?;
    reads(&rt, alloc, Refusal::UnknownName { name }, 2, ": kv")?;
    let name = text(alloc, "kv.z")?;
    reads(&rt, alloc, Refusal::UnknownColumn { name }, 3, ": kv.z")?;
    Ok(())
}

#[test]
fn refusals_of_items_are_read(rt: HostRuntime) -> Result<(), Fail> {
    let alloc = rt.alloc();
    let taken = name(&rt, alloc)?;
    reads(&rt, alloc, Refusal::NameTaken { name: taken }, 4, ": kv")?;
    let name = text(alloc, "*")?;
    reads(&rt, alloc, Refusal::WrongType { name }, 5, ": *")?;
    reads(&rt, alloc, Refusal::TooManyLeaves { has: 5 }, 7, ": has 5")?;
    let name = self::name(&rt, alloc)?;
    reads(&rt, alloc, Refusal::HasDependents { name }, 8, ": kv")?;
    Ok(())
}

#[test]
fn refusals_by_numbers_are_read(rt: HostRuntime) -> Result<(), Fail> {
    let alloc = rt.alloc();
    let (has, adds) = (65536, 1);
    reads(
        &rt,
        alloc,
        Refusal::TableFull { has, adds },
        9,
        ": has 65536, adds 1",
    )?;
    reads(&rt, alloc, Refusal::Busy { call: 1 }, 10, ": call 1")?;
    let (what, limit) = (Limited::Feeds, 4096);
    reads(
        &rt,
        alloc,
        Refusal::TooMany { what, limit },
        17,
        ": feeds 4096",
    )?;
    Ok(())
}

#[test]
fn refusals_by_times_are_read(rt: HostRuntime) -> Result<(), Fail> {
    let alloc = rt.alloc();
    let (one, two) = (time(1), time(2));
    let before = Refusal::BeforeSession {
        asked: one,
        seen: two,
    };
    reads(&rt, alloc, before, 11, ": asked 1, seen 2")?;
    let before = Refusal::BeforeSince {
        asked: one,
        since: two,
    };
    reads(&rt, alloc, before, 12, ": asked 1, since 2")?;
    let after = Refusal::AfterRead {
        asked: two,
        read: one,
    };
    reads(&rt, alloc, after, 13, ": asked 2, read 1")?;
    Ok(())
}

#[test]
fn refusals_of_moved_times_are_read(rt: HostRuntime) -> Result<(), Fail> {
    let alloc = rt.alloc();
    let (one, two) = (time(1), time(2));
    let moved = Refusal::CatalogMoved {
        ddl: two,
        asked: one,
    };
    reads(&rt, alloc, moved, 14, ": ddl 2, asked 1")?;
    reads(&rt, alloc, Refusal::TimeSpent { last: two }, 18, ": last 2")?;
    let below = Refusal::BelowHold {
        at: one,
        asked: two,
    };
    reads(&rt, alloc, below, 20, ": at 1, asked 2")?;
    Ok(())
}

#[test]
fn refusals_of_sessions_are_read(rt: HostRuntime) -> Result<(), Fail> {
    let alloc = rt.alloc();
    reads(&rt, alloc, Refusal::InTransaction, 15, ": in transaction")?;
    reads(&rt, alloc, Refusal::NoTransaction, 16, ": no transaction")?;
    reads(&rt, alloc, Refusal::Closed, 19, ": closed")?;
    Ok(())
}

#[test]
fn a_refusal_is_copied(rt: HostRuntime) -> Result<(), Fail> {
    let alloc = rt.alloc();
    let name = name(&rt, alloc)?;
    let copy = Refusal::HasDependents { name }.try_copy(alloc)?;
    reads(&rt, alloc, copy, 8, ": kv")?;
    Ok(())
}

#[test]
fn a_fault_has_its_number(rt: HostRuntime) -> Result<(), Fail> {
    let alloc = rt.alloc();
    let fault = CallFault::Refused(Refusal::Busy { call: 3 });
    let text = format!(in alloc; "{fault}")?;
    assert_eq!(rt; text.as_str(), "refused 10: call 3");
    Ok(())
}
