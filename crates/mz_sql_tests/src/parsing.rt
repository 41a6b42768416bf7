//! Texts with their statements and with their faults, read off the grammar by hand.

use mz_parse::{ParseFault, parse};
use mz_statement::{
    Column, ColumnName, ColumnNames, ColumnType, Columns, Condition, Expression, Joins, Op, Query,
    Reference, Select, SelectItem, SelectItems, Side, Statement, Test,
};
use mz_value::{Datum, Name, Row, Rows, Text, is_name};
use sqlite_items::{Boxed, Items};
use std::alloc::{AllocError, Global};
use std::process::Abort;
use std::test::Fail;

fn text(alloc: Global, spelled: &str) -> Result<Text, AllocError> {
    Ok(Text::from_string(String::from_str(alloc, spelled)?))
}

fn name(rt: &impl Abort, alloc: Global, word: &str) -> Result<Name, AllocError> {
    assert!(rt; is_name(word.as_bytes()), "{word}");
    Name::new(alloc, word.as_bytes())
}

// A column that is named alone.
fn column(rt: &impl Abort, alloc: Global, word: &str) -> Result<ColumnName, AllocError> {
    Ok(ColumnName {
        qualifier: None,
        name: name(rt, alloc, word)?,
    })
}

// The comparison of a column with 1.
fn compared(rt: &impl Abort, alloc: Global, word: &str, op: Op) -> Result<Test, AllocError> {
    let one = Side::Literal(Datum::Int(1));
    Ok(Test::Compare(column(rt, alloc, word)?, op, one))
}

// The text is read as the statement.
fn reads(rt: &impl Abort, alloc: Global, spelled: &str, statement: Statement) -> Result<(), Fail> {
    let read = parse(alloc, &text(alloc, spelled)?)?;
    assert!(rt; read == statement, "{spelled}");
    Ok(())
}

// The condition behind WHERE is read as the test.
fn tests(rt: &impl Abort, alloc: Global, spelled: &str, test: Test) -> Result<(), Fail> {
    assert!(rt; test.is_normal(), "{spelled}");
    let statement = Statement::Delete(name(rt, alloc, "kv")?, Some(Condition::new(test)));
    reads(rt, alloc, spelled, statement)
}

#[test]
fn columns_have_types(rt: HostRuntime) -> Result<(), Fail> {
    let first = Column {
        name: name(&rt, rt.alloc(), "a")?,
        kind: ColumnType::Int,
    };
    let second = Column {
        name: name(&rt, rt.alloc(), "b")?,
        kind: ColumnType::Bool,
    };
    let columns = Columns::from_vec(vec![in rt.alloc(); first, second]?);
    let statement = Statement::CreateTable(name(&rt, rt.alloc(), "t")?, columns);
    reads(&rt, rt.alloc(), "create table T(A int,b Bool )", statement)
}

#[test]
fn values_are_read(rt: HostRuntime) -> Result<(), Fail> {
    let text = Datum::Text(text(rt.alloc(), "it's")?);
    let row = Row::from_vec(vec![in rt.alloc(); Datum::Int(-1), text, Datum::Bool(true)]?);
    let rows = Rows::from_vec(vec![in rt.alloc(); row]?);
    let statement = Statement::Insert(name(&rt, rt.alloc(), "kv")?, rows);
    reads(
        &rt,
        rt.alloc(),
        "insert into kv values(- 1,'it''s',TRUE)",
        statement,
    )
}

#[test]
fn and_binds_more_than_or(rt: HostRuntime) -> Result<(), Fail> {
    let first = compared(&rt, rt.alloc(), "a", Op::Eq)?;
    let second = compared(&rt, rt.alloc(), "b", Op::Lt)?;
    let third = compared(&rt, rt.alloc(), "c", Op::Ne)?;
    let both = Test::All(Items::from_vec(vec![in rt.alloc(); first, second]?));
    let either = Test::Any(Items::from_vec(vec![in rt.alloc(); both, third]?));
    tests(
        &rt,
        rt.alloc(),
        "delete from kv where a=1 and b<1 or c<>1",
        either,
    )
}

#[test]
fn not_binds_most(rt: HostRuntime) -> Result<(), Fail> {
    let first = Boxed::new(rt.alloc(), compared(&rt, rt.alloc(), "a", Op::Gt)?)?;
    let second = compared(&rt, rt.alloc(), "b", Op::Le)?;
    let both = Test::All(Items::from_vec(vec![in rt.alloc(); Test::Not(first), second]?));
    tests(
        &rt,
        rt.alloc(),
        "delete from kv where not a>1 and(b<=1)",
        both,
    )
}

// The query of one select of this item, from t, at time 9.
fn query_of(rt: &impl Abort, alloc: Global, item: SelectItem) -> Result<Statement, AllocError> {
    let select = Select {
        distinct: true,
        items: Some(SelectItems::from_vec(vec![in alloc; item]?)),
        first: Reference {
            name: name(rt, alloc, "t")?,
            alias: None,
        },
        joins: Joins::from_vec(Vec::new(alloc)),
        test: None,
        group: ColumnNames::from_vec(vec![in alloc; column(rt, alloc, "g")?]?),
    };
    let query = Query::from_vec(vec![in alloc; select]?);
    Ok(Statement::Query(query, Some(9)))
}

#[test]
fn a_query_is_read(rt: HostRuntime) -> Result<(), Fail> {
    let item = SelectItem {
        expression: Expression::Sum(column(&rt, rt.alloc(), "a")?),
        alias: Some(name(&rt, rt.alloc(), "s")?),
    };
    let statement = query_of(&rt, rt.alloc(), item)?;
    let spelled = "select distinct Sum(a)as S from t group by g as of 9";
    reads(&rt, rt.alloc(), spelled, statement)
}

#[test]
fn faults_of_syntax_have_their_places(rt: HostRuntime) -> Result<(), Fail> {
    let cases = [
        ("SELEC", 0),
        ("", 0),
        ("DROP", 4),
        ("DROP TABLE from", 11),
        ("BEGIN ;;", 7),
        ("COMMIT x", 7),
        ("SELECT a FROM kv t2", 17),
        ("SELECT foo(a) FROM kv", 10),
        ("SELECT a FROM kv WHERE a ! 1", 25),
        ("SELECT a FROM kv WHERE 'x", 23),
        ("SELECT a FROM kv UNION SELECT", 23),
        ("CREATE VIEW v AS SELECT * FROM kv AS OF 5", 37),
    ];
    for (spelled, at) in cases {
        let found = parse(rt.alloc(), &text(rt.alloc(), spelled)?).err();
        assert_eq!(rt; found, Some(ParseFault::Syntax { at }), "{spelled}");
    }
    Ok(())
}

#[test]
fn faults_of_range_have_their_places(rt: HostRuntime) -> Result<(), Fail> {
    let cases = [
        ("INSERT INTO kv VALUES (1, 2147483648)", 26),
        ("INSERT INTO kv VALUES (-2147483649)", 23),
        ("RETAIN kv LAG 0", 14),
        ("RETAIN kv LAG 4294967296", 14),
        ("RETAIN kv FROM 9223372036854775808", 15),
        ("SELECT * FROM kv AS OF 99999999999999999999999999", 23),
    ];
    for (spelled, at) in cases {
        let found = parse(rt.alloc(), &text(rt.alloc(), spelled)?).err();
        assert_eq!(rt; found, Some(ParseFault::LiteralRange { at }), "{spelled}");
    }
    Ok(())
}

// The fault of a DELETE whose condition has so many of these before its comparison.
fn nested(
    alloc: Global,
    count: u64,
    open: &str,
    close: &str,
) -> Result<Option<ParseFault>, AllocError> {
    let mut spelled = String::from_str(alloc, "DELETE FROM kv WHERE ")?;
    for _ in 0..count {
        spelled.push_str(open)?;
    }
    spelled.push_str("k = 1")?;
    for _ in 0..count {
        spelled.push_str(close)?;
    }
    Ok(parse(alloc, &Text::from_string(spelled)).err())
}

#[test]
fn sixty_four_parentheses_may_be_open(rt: HostRuntime) -> Result<(), Fail> {
    let syntax = Some(ParseFault::Syntax { at: 85 });
    assert_eq!(rt; nested(rt.alloc(), 64, "(", ")")?, None);
    assert_eq!(rt; nested(rt.alloc(), 65, "(", ")")?, syntax);
    Ok(())
}

// The fault of an INSERT of a text that is so long.
fn inserted(alloc: Global, length: u64) -> Result<Option<ParseFault>, AllocError> {
    let mut spelled = String::from_str(alloc, "INSERT INTO kv VALUES ('")?;
    for _ in 0..length {
        spelled.push_str("x")?;
    }
    spelled.push_str("')")?;
    Ok(parse(alloc, &Text::from_string(spelled)).err())
}

#[test]
fn a_text_may_be_long(rt: HostRuntime) -> Result<(), Fail> {
    let range = Some(ParseFault::LiteralRange { at: 23 });
    assert_eq!(rt; inserted(rt.alloc(), 1024)?, None);
    assert_eq!(rt; inserted(rt.alloc(), 1025)?, range);
    Ok(())
}

#[test]
fn a_statement_may_be_long(rt: HostRuntime) -> Result<(), Fail> {
    let mut spelled = String::from_str(rt.alloc(), "INSERT INTO kv VALUES (1, 2)")?;
    for _ in 0..7_500 {
        spelled.push_str(", (1, 2)")?;
    }
    match parse(rt.alloc(), &Text::from_string(spelled))? {
        Statement::Insert(_, rows) => assert_eq!(rt; rows.len(), 7_501),
        _ => assert!(rt; false, "another statement"),
    }
    Ok(())
}
