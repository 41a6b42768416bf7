//! Texts with their one form and with their faults, worked by hand.

use mz_sql::{Asked, ParseFault, ask, normalized};
use mz_statement::Statement;
use mz_value::Text;
use std::alloc::Global;
use std::process::Abort;
use std::test::Fail;

fn text(alloc: Global, spelled: &str) -> Result<Text, Fail> {
    Ok(Text::from_string(String::from_str(alloc, spelled)?))
}

// Asserts that the text has this form, and that the form is its own.
fn has_form(rt: &impl Abort, alloc: Global, odd: &str, plain: &str) -> Result<(), Fail> {
    let form = normalized(alloc, &text(alloc, odd)?).expect(rt, odd);
    assert_eq!(rt; form.as_str(), plain);
    let again = normalized(alloc, &form).expect(rt, plain);
    assert_eq!(rt; again.as_str(), plain);
    Ok(())
}

#[test]
fn commands_have_one_form(rt: HostRuntime) -> Result<(), Fail> {
    let cases = [
        (" bEgIn ;", "BEGIN"),
        ("retain kv lag 007", "RETAIN kv LAG 7"),
        ("Retain kv From 0", "RETAIN kv FROM 0"),
        ("drop table T", "DROP TABLE t"),
        ("create index i on T", "CREATE INDEX i ON t"),
        (
            "create table T(A int,B text , c BOOL)",
            "CREATE TABLE t (a INT, b TEXT, c BOOL)",
        ),
        (
            "insert into kv values(-1,'it''s'),(- 0,TRUE)",
            "INSERT INTO kv VALUES (-1, 'it''s'), (0, TRUE)",
        ),
    ];
    for (odd, plain) in cases {
        has_form(&rt, rt.alloc(), odd, plain)?;
    }
    Ok(())
}

#[test]
fn a_query_has_one_form(rt: HostRuntime) -> Result<(), Fail> {
    has_form(
        &rt,
        rt.alloc(),
        "select distinct T.A as x,count(*),Sum(b)as s from t as u join v on a=v.b and c=d where((k=1)and not(a<b or c>=-2))group by a as of 9",
        "SELECT DISTINCT t.a AS x, COUNT(*), SUM(b) AS s FROM t AS u JOIN v ON a = v.b AND c = d WHERE k = 1 AND NOT (a < b OR c >= -2) GROUP BY a AS OF 9",
    )
}

#[test]
fn a_view_has_one_form(rt: HostRuntime) -> Result<(), Fail> {
    has_form(
        &rt,
        rt.alloc(),
        "create view v as select count from t where(a=1 or b=2)and((c<>3))union all select * from t",
        "CREATE VIEW v AS SELECT count FROM t WHERE (a = 1 OR b = 2) AND c <> 3 UNION ALL SELECT * FROM t",
    )
}

// The fault of the text's form.
fn fault_of(alloc: Global, spelled: &str) -> Result<Option<ParseFault>, Fail> {
    Ok(normalized(alloc, &text(alloc, spelled)?).err())
}

#[test]
fn a_fault_is_handed_on(rt: HostRuntime) -> Result<(), Fail> {
    let syntax = fault_of(rt.alloc(), "SELECT * FRM kv")?;
    assert_eq!(rt; syntax, Some(ParseFault::Syntax { at: 9 }));
    let range = fault_of(rt.alloc(), "SELECT * FROM kv AS OF 9223372036854775808")?;
    assert_eq!(rt; range, Some(ParseFault::LiteralRange { at: 23 }));
    Ok(())
}

#[test]
fn a_statement_is_asked_for(rt: HostRuntime) -> Result<(), Fail> {
    let asked = ask(rt.alloc(), &text(rt.alloc(), "commit;")?)?;
    assert!(rt; matches!(asked, Asked::Statement(Statement::Commit)));
    Ok(())
}

#[test]
fn a_refusal_is_asked_for(rt: HostRuntime) -> Result<(), Fail> {
    let asked = ask(rt.alloc(), &text(rt.alloc(), "SELECT * FRM kv")?)?;
    assert!(rt; matches!(asked, Asked::Syntax(9)));
    Ok(())
}
