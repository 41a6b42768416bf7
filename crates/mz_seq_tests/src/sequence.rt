//! What no clause says of the sequential object: that calls succeed, and rounds worked by hand.
ghost use Rattle.std.specs.Prelude.{◌≡◌, IfOk};
ghost use Rattle.mz_seq.specs.Asked.{IsAsked};
ghost use Rattle.mz_seq.specs.Done.{is_query};

use crate::parts::{row, text};
use mz_plan::Resolved;
use mz_refusal::CallFault;
use mz_resolve::resolve;
use mz_seq::Seq;
use mz_sql::parse;
use mz_statement::Statement;
use mz_value::{Row, Text};
use std::alloc::{AllocError, Global};
use std::process::Abort;
use std::test::Fail;

// The statement of a text.
fn statement(rt: &impl Abort, alloc: Global, spelled: &str) -> Result<Statement, AllocError> {
    let text = Text::from_string(String::from_str(alloc, spelled)?);
    Ok(parse(alloc, &text).expect(rt, spelled))
}

// What a statement asks for in cluster 0.
fn asked_for(alloc: Global, seq: &Seq, statement: &Statement) -> Result<Resolved, CallFault>
    ensures { IfOk result (λ asked. IsAsked seq.now.present.items asked) }
{
    resolve(alloc, statement, seq.catalog(), 0)
}

fn is_query(asked: &Resolved) -> bool
    ensures { result ≡ is_query asked.now }
{
    matches!(asked, Resolved::Query(_))
}

// What a command is told, as a text.
fn told(
    rt: &impl Abort,
    alloc: Global,
    seq: &mut Seq,
    statement: &Statement,
) -> Result<String, AllocError> {
    match asked_for(alloc, seq, statement) {
        Ok(asked) => {
            assert!(rt; !is_query(&asked));
            text(alloc, seq.apply(asked)?)
        }
        Err(_) => String::from_str(alloc, "it doesn't resolve"),
    }
}

// Asserts what each command is told.
fn says(
    rt: &impl Abort,
    alloc: Global,
    seq: &mut Seq,
    lines: &[(&str, &str)],
) -> Result<(), AllocError> {
    for &(spelled, wanted) in lines {
        let statement = statement(rt, alloc, spelled)?;
        let told = told(rt, alloc, seq, &statement)?;
        assert_eq!(rt; told.as_str(), wanted, "{spelled}");
    }
    Ok(())
}

// Of each table that is there its number, and how many different rows came or went since the mark.
fn changed(alloc: Global, seq: &Seq) -> Result<String, AllocError> {
    let mut text = String::new(alloc);
    for table in seq.changes() {
        if table.is {
            let number = table.number;
            let rows = table.rows.changes().len();
            write!(text, "{number}: {rows}; ")?;
        }
    }
    Ok(text)
}

// A round in which a table comes and `kv` goes is abandoned.
fn abandon(rt: &impl Abort, alloc: Global, seq: &mut Seq) -> Result<(), AllocError> {
    let before = [("INSERT INTO kv VALUES (1, 2), (1, 2)", "inserted 2")];
    says(rt, alloc, seq, &before)?;
    seq.start_round();
    let round = [
        ("CREATE TABLE t (a INT, b INT)", "created 2"),
        ("INSERT INTO t VALUES (1, 2), (1, 2)", "inserted 2"),
        ("INSERT INTO kv VALUES (1, 2)", "inserted 1"),
        ("DROP TABLE kv", "dropped"),
    ];
    says(rt, alloc, seq, &round)?;
    assert_eq!(rt; changed(alloc, seq)?.as_str(), "2: 1; ");
    seq.abandon_round();
    assert_eq!(rt; changed(alloc, seq)?.as_str(), "1: 0; ");
    let after = [
        ("DELETE FROM kv", "deleted 2"),
        ("CREATE TABLE t (a INT, b INT)", "created 2"),
        ("DELETE FROM t", "deleted 0"),
    ];
    says(rt, alloc, seq, &after)
}

#[test]
fn a_round_is_abandoned(rt: HostRuntime) -> Result<(), Fail> {
    let mut seq = Seq::fresh(rt.alloc())?;
    abandon(&rt, rt.alloc(), &mut seq)?;
    Ok(())
}

// A table that an index is on goes only behind it.
fn drop_both(rt: &impl Abort, alloc: Global, seq: &mut Seq) -> Result<(), AllocError> {
    let lines = [
        ("CREATE INDEX i ON kv", "created 2"),
        ("DROP TABLE kv", "refused 8: i"),
        ("DROP INDEX i", "dropped"),
        ("DROP TABLE kv", "dropped"),
        ("CREATE TABLE t (a INT, b INT, a INT)", "refused 4: a"),
        ("CREATE TABLE t (a INT)", "created 3"),
    ];
    says(rt, alloc, seq, &lines)
}

#[test]
fn a_drop_is_refused_and_done(rt: HostRuntime) -> Result<(), Fail> {
    let mut seq = Seq::fresh(rt.alloc())?;
    drop_both(&rt, rt.alloc(), &mut seq)?;
    Ok(())
}

// Of each table its number, how often it has a row, and how many different rows it has.
fn copied(alloc: Global, seq: &Seq, row: &Row) -> Result<String, AllocError> {
    let mut text = String::new(alloc);
    for (number, bag) in seq.bags()? {
        let count = bag.get(row);
        let rows = bag.len();
        write!(text, "{number}: {count} of {rows}; ")?;
    }
    Ok(text)
}

// A row comes and goes, another comes twice, and a second table stays empty.
fn copy(rt: &impl Abort, alloc: Global, seq: &mut Seq) -> Result<(), AllocError> {
    let lines = [
        (
            "INSERT INTO kv VALUES (1, 2), (3, 4), (1, 2), (5, 6)",
            "inserted 4",
        ),
        ("DELETE FROM kv WHERE k = 3", "deleted 1"),
        ("CREATE TABLE t (a INT)", "created 2"),
    ];
    says(rt, alloc, seq, &lines)?;
    let text = copied(alloc, seq, &row(alloc, 1, 2)?)?;
    assert_eq!(rt; text.as_str(), "1: 2 of 2; 2: 0 of 0; ");
    Ok(())
}

#[test]
fn the_rows_of_tables_are_copied(rt: HostRuntime) -> Result<(), Fail> {
    let mut seq = Seq::fresh(rt.alloc())?;
    copy(&rt, rt.alloc(), &mut seq)?;
    Ok(())
}
