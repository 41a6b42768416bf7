//! Statements that no text spells with their texts, and a long one. The texts of the others are in `forms`.

use mz_print::print;
use mz_statement::Statement;
use mz_value::{Datum, Name, Row, Rows, Text, is_name};
use std::alloc::{AllocError, Global};
use std::process::Abort;
use std::test::Fail;

fn name(rt: &impl Abort, alloc: Global, text: &str) -> Result<Name, AllocError> {
    assert!(rt; is_name(text.as_bytes()), "{text}");
    Name::new(alloc, text.as_bytes())
}

// Asserts that the statement is printed so.
fn prints(rt: &impl Abort, alloc: Global, statement: &Statement, plain: &str) -> Result<(), Fail> {
    assert_eq!(rt; print(alloc, statement)?.as_str(), plain);
    Ok(())
}

#[test]
fn isolations_are_printed(rt: HostRuntime) -> Result<(), Fail> {
    let strict = Statement::SetIsolation(true);
    prints(&rt, rt.alloc(), &strict, "SET ISOLATION STRICT")?;
    let session = Statement::SetIsolation(false);
    prints(&rt, rt.alloc(), &session, "SET ISOLATION SESSION")
}

#[test]
fn a_cluster_is_printed(rt: HostRuntime) -> Result<(), Fail> {
    let cluster = Statement::SetCluster(name(&rt, rt.alloc(), "side")?);
    prints(&rt, rt.alloc(), &cluster, "SET CLUSTER side")
}

// The row of a digit and "it's".
fn row(alloc: Global, number: i32) -> Result<Row, AllocError> {
    let text = Text::from_string(String::from_str(alloc, "it's")?);
    Ok(Row::from_vec(vec![in alloc; Datum::Int(number % 10), Datum::Text(text)]?))
}

#[test]
fn a_long_insert_is_printed(rt: HostRuntime) -> Result<(), Fail> {
    let mut rows = Vec::new(rt.alloc());
    for number in 0..20_000i32 {
        rows.push(row(rt.alloc(), number)?)?;
    }
    let statement = Statement::Insert(name(&rt, rt.alloc(), "kv")?, Rows::from_vec(rows));
    let printed = print(rt.alloc(), &statement)?;
    assert_eq!(rt; printed.as_str().len(), 21 + 20_000 * 14 - 1);
    Ok(())
}
