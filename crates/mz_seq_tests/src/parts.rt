//! What no clause says of the parts: that calls succeed, and the rows of a table worked by hand.

use mz_bag::CountedRows;
use mz_log::SeqReply;
use mz_plan::{Cond, Operand};
use mz_seq::{TableRows, delete, insert};
use mz_statement::Op;
use mz_value::{Datum, Row};
use std::alloc::{AllocError, Global};
use std::process::Abort;
use std::test::Fail;

/// A row of two numbers.
pub fn row(alloc: Global, k: i32, v: i32) -> Result<Row, AllocError> {
    Ok(Row::from_vec(vec![in alloc; Datum::Int(k), Datum::Int(v)]?))
}

// A row so many times.
fn copies(alloc: Global, k: i32, count: usize) -> Result<Vec<Row>, AllocError> {
    let mut rows = Vec::new(alloc);
    for _copy in 0..count {
        rows.push(row(alloc, k, 1)?)?;
    }
    Ok(rows)
}

/// What a command is told, as a text.
pub fn text(alloc: Global, reply: SeqReply) -> Result<String, AllocError> {
    match reply {
        SeqReply::Created(id) => format!(in alloc; "created {id}"),
        SeqReply::Dropped => format!(in alloc; "dropped"),
        SeqReply::Inserted(count) => format!(in alloc; "inserted {count}"),
        SeqReply::Deleted(count) => format!(in alloc; "deleted {count}"),
        SeqReply::Refused(why) => {
            let number = why.number();
            format!(in alloc; "refused {number}{why}")
        }
    }
}

// Asserts what an INSERT of a row so many times is told.
fn inserts(
    rt: &impl Abort,
    alloc: Global,
    table: &mut TableRows,
    k: i32,
    count: usize,
    told: &str,
) -> Result<(), AllocError> {
    let rows = copies(alloc, k, count)?;
    let reply = insert(table, rows.as_slice())?;
    assert_eq!(rt; text(alloc, reply)?.as_str(), told);
    Ok(())
}

// Asserts what a DELETE of the rows whose first column has this value is told.
fn deletes(
    rt: &impl Abort,
    alloc: Global,
    table: &mut TableRows,
    k: i32,
    told: &str,
) -> Result<(), AllocError> {
    let cond = Some(Cond::Compare(0, Op::Eq, Operand::Literal(Datum::Int(k))));
    let reply = delete(table, &cond)?;
    assert_eq!(rt; text(alloc, reply)?.as_str(), told);
    Ok(())
}

// Rows that come, go and are taken back to the mark.
fn go_back(rt: &impl Abort, alloc: Global, table: &mut TableRows) -> Result<(), AllocError> {
    inserts(rt, alloc, table, 1, 2, "inserted 2")?;
    inserts(rt, alloc, table, 0, 1, "inserted 1")?;
    table.mark();
    deletes(rt, alloc, table, 1, "deleted 2")?;
    inserts(rt, alloc, table, 7, 1, "inserted 1")?;
    assert_eq!(rt; table.rows(), 2);
    table.back();
    assert_eq!(rt; table.rows(), 3);
    deletes(rt, alloc, table, 7, "deleted 0")?;
    deletes(rt, alloc, table, 1, "deleted 2")?;
    Ok(())
}

#[test]
fn what_came_since_a_mark_goes_back(rt: HostRuntime) -> Result<(), Fail> {
    let mut table = TableRows::empty(rt.alloc());
    go_back(&rt, rt.alloc(), &mut table)?;
    Ok(())
}

// The row of 1 and 1, taken away twice.
fn gone(alloc: Global) -> Result<CountedRows, AllocError> {
    Ok(CountedRows::from_vec(vec![in alloc; (row(alloc, 1, 1)?, -2)]?))
}

// What came since the mark is told with its sign.
fn take_out(rt: &impl Abort, alloc: Global, table: &mut TableRows) -> Result<(), AllocError> {
    inserts(rt, alloc, table, 1, 2, "inserted 2")?;
    table.mark();
    assert!(rt; table.changes().is_empty());
    deletes(rt, alloc, table, 1, "deleted 2")?;
    assert_eq!(rt; table.changes().counted()?, gone(alloc)?);
    Ok(())
}

#[test]
fn what_came_since_a_mark_is_told(rt: HostRuntime) -> Result<(), Fail> {
    let mut table = TableRows::empty(rt.alloc());
    take_out(&rt, rt.alloc(), &mut table)?;
    Ok(())
}

// A table is filled to the last row.
fn fill(rt: &impl Abort, alloc: Global, table: &mut TableRows) -> Result<(), AllocError> {
    inserts(rt, alloc, table, 1, 65_536, "inserted 65536")?;
    inserts(rt, alloc, table, 1, 1, "refused 9: has 65536, adds 1")?;
    deletes(rt, alloc, table, 1, "deleted 65536")?;
    inserts(rt, alloc, table, 1, 1, "inserted 1")
}

#[test]
fn a_table_has_no_more_rows_than_it_may(rt: HostRuntime) -> Result<(), Fail> {
    let mut table = TableRows::empty(rt.alloc());
    fill(&rt, rt.alloc(), &mut table)?;
    Ok(())
}
