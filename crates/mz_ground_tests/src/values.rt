//! What no clause says: the order of values and names worked by hand, and that calls succeed.

use mz_value::{Datum, Name, Row, Rows, Text, is_name};
use std::alloc::{AllocError, Global};
use std::process::Abort;
use std::test::Fail;

fn text(alloc: Global, text: &str) -> Result<Datum, AllocError> {
    Ok(Datum::Text(Text::from_string(String::from_str(alloc, text)?)))
}

fn row(alloc: Global, number: i32, string: &str) -> Result<Row, AllocError> {
    Ok(Row::from_vec(vec![in alloc; Datum::Int(number), text(alloc, string)?]?))
}

// That the first value stands before the second.
fn rises(rt: &impl Abort, first: &Datum, second: &Datum) {
    assert!(rt; first < second, "{first:?}");
}

#[test]
fn values_of_one_type_are_in_order(rt: HostRuntime) -> Result<(), Fail> {
    let alloc = rt.alloc();
    rises(&rt, &Datum::Int(-2), &Datum::Int(10));
    rises(&rt, &text(alloc, "")?, &text(alloc, "Z")?);
    rises(&rt, &text(alloc, "Z")?, &text(alloc, "a")?);
    rises(&rt, &Datum::Bool(false), &Datum::Bool(true));
    rises(&rt, &Datum::Wide(-1_000_000_000_000), &Datum::Wide(7));
    Ok(())
}

#[test]
fn types_are_in_order(rt: HostRuntime) -> Result<(), Fail> {
    let alloc = rt.alloc();
    rises(&rt, &Datum::Int(10), &text(alloc, "")?);
    rises(&rt, &text(alloc, "a")?, &Datum::Bool(false));
    rises(&rt, &Datum::Bool(true), &Datum::Wide(-1_000_000_000_000));
    Ok(())
}

#[test]
fn names_are_lowered_words(rt: HostRuntime) -> Result<(), Fail> {
    let long = "abcdefghijklmnopqrstuvwxyz_0123456789_abcdefghijklmnopqrstuvwxy";
    let longer = "abcdefghijklmnopqrstuvwxyz_0123456789_abcdefghijklmnopqrstuvwxyz";
    let words = [
        ("a", true),
        ("_", true),
        ("r1_x", true),
        (long, true),
        ("", false),
        ("1r", false),
        ("Kv", false),
        ("a-b", false),
        ("caf\u{e9}", false),
        (longer, false),
    ];
    for (word, wanted) in words {
        let bytes = word.as_bytes();
        assert_eq!(rt; is_name(bytes), wanted, "{word}");
        if is_name(bytes) {
            let name = Name::new(rt.alloc(), bytes)?.try_copy(rt.alloc())?;
            assert_eq!(rt; format!(in rt.alloc(); "{name}")?.as_str(), word);
        }
    }
    Ok(())
}

#[test]
fn rows_are_copied(rt: HostRuntime) -> Result<(), Fail> {
    let rows = Rows::from_vec(vec![in rt.alloc();
        row(rt.alloc(), 1, "a")?,
        row(rt.alloc(), 1, "a")?,
    ]?);
    assert!(rt; !rows.is_empty());
    assert_eq!(rt; rows.try_copy(rt.alloc())?, rows);
    Ok(())
}
