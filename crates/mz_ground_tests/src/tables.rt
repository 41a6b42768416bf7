//! What no clause says: a table with its past worked by hand, and that calls succeed.
ghost use Rattle.std.specs.Prelude.{◌≡◌, ◌≤◌, ℕ, List, IfOk, OnOk, FitsSigned};
ghost use Rattle.std.specs.Int.{w32};
ghost use Rattle.mz_value.specs.declared.datum.Datum.{Datum};
ghost use Rattle.mz_bag.specs.Bag.{count_in};
ghost use Rattle.mz_tables.specs.Table.{table_at};

use crate::bags::{bag, row};
use crate::updates::time;
use mz_tables::TableStore;
use mz_updates::{Batch, Update};
use std::alloc::{AllocError, Global};
use std::process::Abort;
use std::test::Fail;

// A table that has a row twice from 1 on.
fn begun(rt: &impl Abort, alloc: Global) -> Result<TableStore, AllocError>
    ensures since { IfOk result (λ store. store.present.since ≡ 1) }
    ensures upper { IfOk result (λ store. store.present.upper ≡ 2) }
    ensures small { IfOk result (λ store. (t : ℕ) (q : List Datum)
        → 1 ≤ t → FitsSigned w32 (count_in (table_at store.present t) q)) }
{
    let mut store = TableStore::at(alloc, time(rt, 1));
    let changes = bag(rt, alloc, [(1, "a", 2)].as_slice())?;
    store.append(time(rt, 1), &changes)?;
    Ok(store)
}

// One of the two goes at 3, and another row comes.
fn changed(rt: &impl Abort, alloc: Global, store: &mut TableStore) -> Result<(), AllocError>
    requires since { store.old.present.since ≡ 1 }
    requires upper { store.old.present.upper ≡ 2 }
    requires small { (t : ℕ) (q : List Datum)
        → 1 ≤ t → FitsSigned w32 (count_in (table_at store.old.present t) q) }
    ensures since { OnOk result (store.new.present.since ≡ 1) }
    ensures upper { OnOk result (store.new.present.upper ≡ 4) }
    ensures marked { store.new.marked ≡ store.old.marked }
{
    let changes = bag(rt, alloc, [(2, "b", 1), (1, "a", -1)].as_slice())?;
    store.append(time(rt, 3), &changes)
}

// The table after both.
fn store(rt: &impl Abort, alloc: Global) -> Result<TableStore, AllocError>
    ensures since { IfOk result (λ store. store.present.since ≡ 1) }
    ensures upper { IfOk result (λ store. store.present.upper ≡ 4) }
{
    let mut store = begun(rt, alloc)?;
    changed(rt, alloc, &mut store)?;
    Ok(store)
}

// That an update of a batch is this one.
fn is_there(
    rt: &impl Abort,
    alloc: Global,
    batch: &Batch,
    place: usize,
    wanted: (i32, &str, u64, i128),
) -> Result<(), AllocError> {
    let (number, string, at, diff) = wanted;
    let update = Update {
        row: row(alloc, number, string)?,
        time: time(rt, at),
        diff,
    };
    assert_eq!(rt; batch.updates.as_slice().get(place), Some(&update));
    Ok(())
}

#[test]
fn a_table_is_what_it_was_at_each_time(rt: HostRuntime) -> Result<(), Fail> {
    let store = store(&rt, rt.alloc())?;
    let row = row(rt.alloc(), 1, "a")?;
    assert_eq!(rt; store.contents(time(&rt, 2))?.get(&row), 2);
    assert_eq!(rt; store.contents(time(&rt, 3))?.get(&row), 1);
    assert_eq!(rt; store.contents(time(&rt, 3))?.len(), 2);
    Ok(())
}

#[test]
fn a_batch_has_what_changed_from_its_first_time_on(rt: HostRuntime) -> Result<(), Fail> {
    let store = store(&rt, rt.alloc())?;
    let batch = store.batch(3, time(&rt, 3))?;
    assert!(rt; !batch.whole);
    assert_eq!(rt; batch.updates.len(), 2);
    is_there(&rt, rt.alloc(), &batch, 0, (1, "a", 3, -1))?;
    is_there(&rt, rt.alloc(), &batch, 1, (2, "b", 3, 1))?;
    Ok(())
}

#[test]
fn a_whole_batch_begins_with_the_table_at_the_since(rt: HostRuntime) -> Result<(), Fail> {
    let mut store = store(&rt, rt.alloc())?;
    store.compact(time(&rt, 2));
    let batch = store.batch(2, time(&rt, 3))?;
    assert!(rt; batch.whole);
    assert_eq!(rt; batch.updates.len(), 3);
    is_there(&rt, rt.alloc(), &batch, 0, (1, "a", 2, 2))?;
    is_there(&rt, rt.alloc(), &batch, 1, (1, "a", 3, -1))?;
    Ok(())
}

#[test]
fn a_table_is_taken_back_to_its_mark(rt: HostRuntime) -> Result<(), Fail> {
    let mut store = begun(&rt, rt.alloc())?;
    store.mark();
    changed(&rt, rt.alloc(), &mut store)?;
    assert_eq!(rt; store.upper(), 4);
    store.back();
    assert_eq!(rt; store.upper(), 2);
    assert_eq!(rt; store.since(), time(&rt, 1));
    assert_eq!(rt; store.contents(time(&rt, 3))?.len(), 1);
    Ok(())
}
