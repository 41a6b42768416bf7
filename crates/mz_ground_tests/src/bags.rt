//! What no clause says: the order and the counts of a bag worked by hand, and that calls succeed.
ghost use Rattle.std.specs.Prelude.{List, IfOk, FitsSigned};
ghost use Rattle.std.specs.Int.{w32};
ghost use Rattle.mz_value.specs.declared.datum.Datum.{Datum};
ghost use Rattle.mz_bag.specs.Bag.{count_in};

use mz_bag::{Bag, CountedRows};
use mz_value::{Datum, Row, Text};
use std::alloc::{AllocError, Global};
use std::process::Abort;
use std::test::Fail;

fn text(alloc: Global, text: &str) -> Result<Datum, AllocError> {
    Ok(Datum::Text(Text::from_string(String::from_str(alloc, text)?)))
}

/// A row of an INT and a TEXT.
pub fn row(alloc: Global, number: i32, string: &str) -> Result<Row, AllocError> {
    Ok(Row::from_vec(vec![in alloc; Datum::Int(number), text(alloc, string)?]?))
}

// Adds to a bag whose counts are small.
fn add(rt: &impl Abort, bag: &mut Bag, row: Row, diff: i8) -> Result<(), AllocError>
    ensures { ((q : List Datum) → FitsSigned w32 (count_in bag.old q))
        → (q : List Datum) → FitsSigned w32 (count_in bag.new q) }
{
    let count = bag.get(&row);
    assert!(rt; count >= -1_000);
    assert!(rt; count <= 1_000);
    bag.add(row, i128::from(diff))
}

/// The bag of rows that come and go so often, each a few times.
pub fn bag(rt: &impl Abort, alloc: Global, changes: &[(i32, &str, i8)]) -> Result<Bag, AllocError>
    ensures { IfOk result (λ bag. (q : List Datum) → FitsSigned w32 (count_in bag q)) }
{
    let mut bag = Bag::empty(alloc);
    'changes: for &(number, string, diff) in changes {
        add(rt, &mut bag, row(alloc, number, string)?, diff)?;
    }
    Ok(bag)
}

fn counted(alloc: Global, pairs: &[(i32, &str, i128)]) -> Result<CountedRows, AllocError> {
    let mut rows = Vec::new(alloc);
    for &(number, string, count) in pairs {
        rows.push((row(alloc, number, string)?, count))?;
    }
    Ok(CountedRows::from_vec(rows))
}

#[test]
fn counts_add_up_in_order_of_values(rt: HostRuntime) -> Result<(), Fail> {
    let changes = [
        (2, "b", 1),
        (-1, "z", 2),
        (2, "a", 3),
        (10, "", -4),
        (2, "b", 4),
        (-1, "z", -2),
        (2, "", 1),
    ];
    let bag = bag(&rt, rt.alloc(), changes.as_slice())?;
    let wanted = [(2, "", 1), (2, "a", 3), (2, "b", 5), (10, "", -4)];
    assert_eq!(rt; bag.counted()?, counted(rt.alloc(), wanted.as_slice())?);
    assert_eq!(rt; bag.rows()?.len(), 4);
    assert_eq!(rt; bag.len(), 4);
    assert!(rt; !bag.is_empty());
    Ok(())
}

#[test]
fn a_merge_adds_and_cancels(rt: HostRuntime) -> Result<(), Fail> {
    let mut all = bag(
        &rt,
        rt.alloc(),
        [(1, "a", 2), (1, "b", 3), (3, "c", -1)].as_slice(),
    )?;
    let more = bag(
        &rt,
        rt.alloc(),
        [(3, "c", 1), (1, "b", -1), (0, "z", 7)].as_slice(),
    )?;
    all.merge(&more)?;
    all.negate();
    let wanted = [(0, "z", -7), (1, "a", -2), (1, "b", -2)];
    assert_eq!(rt; all.counted()?, counted(rt.alloc(), wanted.as_slice())?);
    assert_eq!(rt; all.get(&row(rt.alloc(), 3, "c")?), 0);
    assert_eq!(rt; more.get(&row(rt.alloc(), 0, "z")?), 7);
    Ok(())
}

#[test]
fn a_bag_gives_up_its_rows_in_order(rt: HostRuntime) -> Result<(), Fail> {
    let bag = bag(&rt, rt.alloc(), [(2, "b", 1), (1, "", 3)].as_slice())?;
    assert_eq!(rt; bag.counts().len(), 2);
    let wanted = [(1, "", 3), (2, "b", 1)];
    assert_eq!(rt;
        bag.into_counted()?,
        counted(rt.alloc(), wanted.as_slice())?
    );
    Ok(())
}

#[test]
fn counted_rows_are_copied(rt: HostRuntime) -> Result<(), Fail> {
    let pairs = counted(rt.alloc(), [(1, "a", 2)].as_slice())?;
    assert_eq!(rt; pairs.try_copy(rt.alloc())?, pairs);
    assert_eq!(rt; pairs.into_vec().len(), 1);
    Ok(())
}
