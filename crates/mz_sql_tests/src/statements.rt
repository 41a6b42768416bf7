//! What no clause says of statements: that a copy is the statement by `==`, kinds, limits, and the normal form of tests.

use mz_sql::parse;
use mz_statement::{ColumnName, Condition, Keep, Kind, Op, Side, Statement, Test, is_reserved};
use mz_value::{Datum, Name, Row, Rows, Text, is_name};
use sqlite_items::{Boxed, Items};
use std::alloc::{AllocError, Global};
use std::process::Abort;
use std::test::Fail;

fn name(rt: &impl Abort, alloc: Global, text: &str) -> Result<Name, AllocError> {
    assert!(rt; is_name(text.as_bytes()), "{text}");
    Name::new(alloc, text.as_bytes())
}

// The statement's copy is the statement.
fn is_copied(rt: &impl Abort, alloc: Global, statement: &Statement) -> Result<(), Fail> {
    assert!(rt; statement.try_copy(alloc)? == *statement, "{statement:?}");
    Ok(())
}

// The text's statement is within the limits, and so is its copy, which is the statement.
fn is_read_and_copied(rt: &impl Abort, alloc: Global, spelled: &str) -> Result<(), Fail> {
    let text = Text::from_string(String::from_str(alloc, spelled)?);
    let statement = parse(alloc, &text).expect(rt, spelled);
    assert!(rt; statement.is_statement(), "{spelled}");
    is_copied(rt, alloc, &statement)
}

#[test]
fn a_query_is_copied(rt: HostRuntime) -> Result<(), Fail> {
    is_read_and_copied(
        &rt,
        rt.alloc(),
        "SELECT DISTINCT r.a AS x, COUNT(*), SUM(r.b), MIN(c) FROM s AS r JOIN t ON r.k = t.l WHERE NOT (a <= 'x' OR b = c) AND d = TRUE GROUP BY r.a UNION ALL SELECT * FROM t AS OF 7",
    )
}

#[test]
fn commands_are_copied(rt: HostRuntime) -> Result<(), Fail> {
    is_read_and_copied(&rt, rt.alloc(), "CREATE TABLE t (k INT, b BOOL)")?;
    is_read_and_copied(&rt, rt.alloc(), "CREATE VIEW v AS SELECT * FROM t")?;
    is_read_and_copied(&rt, rt.alloc(), "INSERT INTO t VALUES (-1, TRUE)")?;
    is_read_and_copied(&rt, rt.alloc(), "DELETE FROM t WHERE k <> 1")
}

#[test]
fn no_text_spells_a_set(rt: HostRuntime) -> Result<(), Fail> {
    let cluster = Statement::SetCluster(name(&rt, rt.alloc(), "c")?);
    assert!(rt; !cluster.is_statement());
    is_copied(&rt, rt.alloc(), &cluster)
}

#[test]
fn a_reserved_word_is_no_name(rt: HostRuntime) -> Result<(), Fail> {
    let statement = Statement::DropTable(name(&rt, rt.alloc(), "table")?);
    assert!(rt; !statement.is_statement());
    Ok(())
}

// Whether the grammar can spell a RETAIN that keeps this.
fn may_keep(rt: &impl Abort, alloc: Global, keep: Keep) -> Result<bool, AllocError> {
    Ok(Statement::Retain(name(rt, alloc, "t")?, keep).is_statement())
}

#[test]
fn lags_have_limits(rt: HostRuntime) -> Result<(), Fail> {
    assert!(rt; !may_keep(&rt, rt.alloc(), Keep::Lag(0))?);
    assert!(rt; may_keep(&rt, rt.alloc(), Keep::Lag(4_294_967_295))?);
    assert!(rt; !may_keep(&rt, rt.alloc(), Keep::Lag(4_294_967_296))?);
    Ok(())
}

// Whether the grammar can spell an INSERT of a text of so many bytes.
fn may_put(rt: &impl Abort, alloc: Global, length: u64) -> Result<bool, AllocError> {
    let mut text = String::new(alloc);
    for _ in 0..length {
        text.push_str("x")?;
    }
    let row = Row::from_vec(vec![in alloc; Datum::Text(Text::from_string(text))]?);
    let rows = Rows::from_vec(vec![in alloc; row]?);
    Ok(Statement::Insert(name(rt, alloc, "t")?, rows).is_statement())
}

#[test]
fn texts_have_a_limit(rt: HostRuntime) -> Result<(), Fail> {
    assert!(rt; may_put(&rt, rt.alloc(), 1024)?);
    assert!(rt; !may_put(&rt, rt.alloc(), 1025)?);
    Ok(())
}

#[test]
fn statements_have_kinds(rt: HostRuntime) -> Result<(), Fail> {
    let drop = Statement::DropView(name(&rt, rt.alloc(), "v")?);
    assert_eq!(rt; drop.kind(), Kind::Command);
    assert_eq!(rt; Statement::Start.kind(), Kind::Start);
    assert_eq!(rt; Statement::SetIsolation(false).kind(), Kind::Set);
    Ok(())
}

// The comparison of a column with 1.
fn compare(rt: &impl Abort, alloc: Global, text: &str) -> Result<Test, AllocError> {
    let column = ColumnName {
        qualifier: None,
        name: name(rt, alloc, text)?,
    };
    Ok(Test::Compare(column, Op::Le, Side::Literal(Datum::Int(1))))
}

fn not(alloc: Global, test: Test) -> Result<Test, AllocError> {
    Ok(Test::Not(Boxed::new(alloc, test)?))
}

// The test of two columns, joined by AND.
fn both(rt: &impl Abort, alloc: Global) -> Result<Items<Test>, AllocError> {
    let first = compare(rt, alloc, "a")?;
    Ok(Items::from_vec(vec![in alloc; first, compare(rt, alloc, "b")?]?))
}

// The comparison of c beside a test.
fn beside(rt: &impl Abort, alloc: Global, test: Test) -> Result<Items<Test>, AllocError> {
    Ok(Items::from_vec(vec![in alloc; test, compare(rt, alloc, "c")?]?))
}

// Whether the test is normal, and how deep it is.
fn is_as(rt: &impl Abort, test: Test, is_normal: bool, depth: u64) {
    assert_eq!(rt; test.is_normal(), is_normal, "{test:?}");
    assert!(rt; test.is_within(depth), "{test:?}");
    assert!(rt; depth == 0 || !test.is_within(depth - 1), "{test:?}");
}

#[test]
fn a_list_of_one_is_not_normal(rt: HostRuntime) -> Result<(), Fail> {
    let alone = compare(&rt, rt.alloc(), "a")?;
    let single = Test::All(Items::from_vec(vec![in rt.alloc(); alone]?));
    is_as(&rt, single, false, 0);
    Ok(())
}

#[test]
fn an_or_under_and_is_closed(rt: HostRuntime) -> Result<(), Fail> {
    let inner = Test::Any(both(&rt, rt.alloc())?);
    let test = Test::All(beside(&rt, rt.alloc(), inner)?);
    is_as(&rt, test, true, 1);
    Ok(())
}

#[test]
fn a_list_under_not_is_closed(rt: HostRuntime) -> Result<(), Fail> {
    let inner = Test::Any(both(&rt, rt.alloc())?);
    let test = not(rt.alloc(), not(rt.alloc(), inner)?)?;
    is_as(&rt, test, true, 3);
    Ok(())
}

#[test]
fn an_and_under_and_is_not_normal(rt: HostRuntime) -> Result<(), Fail> {
    let inner = Test::All(both(&rt, rt.alloc())?);
    let test = Test::All(beside(&rt, rt.alloc(), inner)?);
    is_as(&rt, test, false, 0);
    Ok(())
}

#[test]
fn words_are_reserved_whole(rt: HostRuntime) {
    for word in ["select", "of", "show", "values"] {
        assert!(rt; is_reserved(word.as_bytes()), "{word}");
    }
    for word in ["", "selec", "selects", "SELECT", "count", "int", "lag"] {
        assert!(rt; !is_reserved(word.as_bytes()), "{word}");
    }
}
