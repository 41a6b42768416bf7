//! Rows in order of values, each with a count. A row whose count is 0 may stand among them: it isn't
//! there.
ghost use Rattle.std.specs.Prelude.{◌≡◌, ◌+ℤ◌, ◌++◌, ◌∷◌, false, List, IsSome, OnOk, OnErr, if◌then◌else◌};
ghost use Rattle.std.specs.FinMap.{entries};
ghost use Rattle.std.specs.List.{AllByRecursion as Each, IsDistinct};
ghost use Rattle.std.specs.BTreeMap.{get};
ghost use Rattle.std.specs.Map.{keys_of};
ghost use Rattle.mz_value.specs.declared.datum.Datum.{Datum};
ghost use Rattle.mz_value.specs.Row.{row_cmp, row_eq};
ghost use Rattle.mz_bag.specs.Bag.{count_in, Fits};
ghost use Rattle.mz_bag.specs.Weighted.{count};
ghost use Rattle.mz_arrange.specs.Kept.{SameRows};

use mz_bag::Bag;
use mz_value::{Row, TryCopy};
use std::alloc::{AllocError, Global};
use std::collections::BTreeMap;

// The count of a row, 0 where it isn't there.
fn count_of(rows: &BTreeMap<Row, i128>, row: &Row) -> i128
    ensures { result ≡ count row.now rows.now.entries }
{
    let _len = rows.len();
    rows.get(row).copied().unwrap_or(0)
}

// The sum of a count and a diff.
fn sum(count: i128, diff: i128) -> i128
    requires { Fits (count +ℤ diff) }
    ensures { result ≡ count +ℤ diff }
{
    count + diff
}

// Gives a row that stands among them its count. It goes where that is 0.
fn set_count(rows: &mut BTreeMap<Row, i128>, row: Row, number: i128)
    requires { IsSome (get row_cmp rows.old row) }
    ensures counts { (q : List Datum) → count q rows.new.entries
        ≡ (if row_eq row q then number else count q rows.old.entries) }
    ensures others { (q : List Datum) → row_eq row q ≡ false
        → IsSome (get row_cmp rows.old q) → IsSome (get row_cmp rows.new q) }
{
    let _len = rows.len();
    let gone = number == 0;
    if gone {
        rows.remove(&row);
    } else {
        let given: Result<_, _> = rows.insert(row, number);
        given.unwrap();
    }
}

// Adds to the count of a row that stands among them.
#[tactic(auto, using(crate::proofs::OrderedLaws::same_added))]
fn add_to(rows: &mut BTreeMap<Row, i128>, row: Row, diff: i128)
    requires place { IsSome (get row_cmp rows.old row) }
    requires fits { Fits (count row rows.old.entries +ℤ diff) }
    ensures added { SameRows rows.new.entries ((row, diff) ∷ rows.old.entries) }
    ensures others { (q : List Datum) → row_eq row q ≡ false
        → IsSome (get row_cmp rows.old q) → IsSome (get row_cmp rows.new q) }
{
    let number = sum(count_of(rows, &row), diff);
    set_count(rows, row, number);
}

// Adds to the count of each of some rows, which all stand among them.
fn add_all(rows: &mut BTreeMap<Row, i128>, more: Vec<(Row, i128)>)
    requires places { Each (λ w. IsSome (get row_cmp rows.old w.0)) more.items }
    requires once { IsDistinct row_eq (keys_of more.items) }
    requires fits { (q : List Datum)
        → Fits (count q rows.old.entries +ℤ count q more.items) }
    ensures { SameRows rows.new.entries (rows.old.entries ++ more.items) }
{
    'adding: for (row, diff) in more {
        add_to(rows, row, diff);
    }
}

// Puts a row among them, with the count 0, where it doesn't stand there.
fn make_place(alloc: Global, rows: &mut BTreeMap<Row, i128>, row: &Row) -> Result<(), AllocError>
    ensures same { SameRows rows.new.entries rows.old.entries }
    ensures place { OnOk result (IsSome (get row_cmp rows.new row.now)) }
    ensures others { (q : List Datum)
        → IsSome (get row_cmp rows.old q) → IsSome (get row_cmp rows.new q) }
{
    let _len = rows.len();
    let stands = rows.contains_key(row);
    if stands {
        return Ok(());
    }
    let copy = row.try_copy(alloc)?;
    rows.insert(copy, 0)?;
    Ok(())
}

// Puts each of some rows among them, with the count 0, where it doesn't stand there.
fn make_places(
    alloc: Global,
    rows: &mut BTreeMap<Row, i128>,
    more: &[(Row, i128)],
) -> Result<(), AllocError>
    ensures same { SameRows rows.new.entries rows.old.entries }
    ensures places { OnOk result (Each (λ w. IsSome (get row_cmp rows.new w.0)) more.now) }
{
    'placing: for (row, _diff) in more {
        make_place(alloc, rows, row)?;
    }
    Ok(())
}

/// Adds the counts of a bag. After an `Err` each row is there as often as before.
/// O(m log n), where the bag has m rows, and n stand among them.
pub fn add_bag(alloc: Global, rows: &mut BTreeMap<Row, i128>, more: Bag) -> Result<(), AllocError>
    requires { (q : List Datum) → Fits (count q rows.old.entries +ℤ count_in more q) }
    ensures ok { OnOk result (SameRows rows.new.entries (rows.old.entries ++ entries more)) }
    ensures err { OnErr result (SameRows rows.new.entries rows.old.entries) }
{
    let more = more.into_counted()?.into_vec();
    make_places(alloc, rows, &more)?;
    add_all(rows, more);
    Ok(())
}
