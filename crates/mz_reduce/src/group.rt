//! Groups.
ghost use Rattle.std.specs.Prelude.{◌≡◌, false, ◌+ℤ◌, [], IfOk, OnOk};
ghost use Rattle.std.specs.FinMap.{entries};
ghost use Rattle.mz_bag.specs.Bag.{count_in, Fits};
ghost use Rattle.mz_plan.specs.Value.{cells};
ghost use Rattle.mz_keyed.specs.Keyed.{rows_of};
ghost use Rattle.mz_reduce.specs.Grouping.{grouped_ints, AreBounded, AreIn, AreRegrouped};
ghost use Rattle.mz_reduce.specs.Grouping.{HasRoom, IsRowIn, IsTouched};
ghost use Rattle.mz_reduce.specs.Orders.{AreOrders};
ghost use Rattle.mz_reduce.specs.Totals.{AreTotals};

use crate::orders::{Orders, turn};
use crate::showing::{keep_taken, push_all, push_shown};
use crate::totals::{Totals, next_totals, put_back};
use indexmap::{IndexMap, IndexSet};
use mz_bag::CountedRows;
use mz_keyed::KeyedRows;
use mz_ops::{Changing, Operator, Timed};
use mz_plan::{Aggregate, Aggregates, Places, cells};
use mz_time::Time;
use mz_updates::Updates;
use mz_value::{Row, TryCopy};
use std::alloc::{AllocError, Global};

/// Of the left rows of each key one row: the key, and behind it the aggregates of these rows. It
/// keeps the rows by their keys, and of each key the totals, and the rows in order where a MIN or a
/// MAX is taken. It takes none on the right. Rows whose number is larger than an INT where a SUM is
/// taken are left out.
#[derive(Drop)]
pub struct Group {
    places: Places,
    aggregates: Aggregates,
    groups: KeyedRows,
    // Each key with the totals of its group.
    totals: IndexMap<Row, Totals>,
    // Of each key the rows of its group, in the order of each place that a MIN or a MAX takes.
    orders: Orders,
}

/// Groups that are told updates.
#[derive(Drop)]
pub struct GroupOp {
    timed: Timed<Group>,
}

// Takes the row of a key's group back, unless the key was touched before.
fn touch(
    alloc: Global,
    out: &mut Vec<(Row, i128)>,
    touched: &mut IndexSet<Row>,
    key: &Row,
    aggregates: &[Aggregate],
    groups: &KeyedRows,
    totals: &IndexMap<Row, Totals>,
    orders: &Orders,
) -> Result<(), AllocError>
    requires totals { AreTotals aggregates.now groups.now totals.now.entries }
    requires orders { AreOrders aggregates.now groups.now orders.now.entries }
    requires bounded { AreBounded aggregates.now (entries (rows_of groups.now key.now)) }
    ensures { OnOk result (IsTouched aggregates.now groups.now key.now
        touched.old.keys touched.new.keys out.old.items out.new.items) }
{
    if touched.contains(key) {
        return Ok(());
    }
    push_shown(alloc, out, key, -1, aggregates, groups, totals, orders)?;
    touched.insert(key.try_copy(alloc)?)?;
    Ok(())
}

// One row comes in.
fn row_in(
    alloc: Global,
    out: &mut Vec<(Row, i128)>,
    touched: &mut IndexSet<Row>,
    row: Row,
    diff: i128,
    places: &[u64],
    aggregates: &[Aggregate],
    groups: &mut KeyedRows,
    totals: &mut IndexMap<Row, Totals>,
    orders: &mut Orders,
) -> Result<(), AllocError>
    requires totals { AreTotals aggregates.now groups.old totals.old.entries }
    requires orders { AreOrders aggregates.now groups.old orders.old.entries }
    requires fits { Fits (count_in (rows_of groups.old (cells places.now row)) row +ℤ diff) }
    requires bounded { let group = rows_of groups.old (cells places.now row) in
        AreBounded aggregates.now (entries group) }
    ensures totals { OnOk result (AreTotals aggregates.now groups.new totals.new.entries) }
    ensures orders { OnOk result (AreOrders aggregates.now groups.new orders.new.entries) }
    ensures row { OnOk result (IsRowIn places.now aggregates.now groups.old groups.new row diff
        touched.old.keys touched.new.keys out.old.items out.new.items) }
{
    let key = cells(alloc, &row, places)?;
    touch(
        alloc, out, touched, &key, aggregates, groups, totals, orders,
    )?;
    turn(alloc, orders, groups, &key, aggregates, &row, diff)?;
    let numbers = next_totals(alloc, totals, &key, aggregates, &row, diff)?;
    let kept = key.try_copy(alloc)?;
    groups.add(kept, row, diff)?;
    put_back(totals, key, numbers, groups)?;
    Ok(())
}

// The rows of a change come in.
fn all_in(
    alloc: Global,
    out: &mut Vec<(Row, i128)>,
    touched: &mut IndexSet<Row>,
    rows: Vec<(Row, i128)>,
    places: &[u64],
    aggregates: &[Aggregate],
    groups: &mut KeyedRows,
    totals: &mut IndexMap<Row, Totals>,
    orders: &mut Orders,
) -> Result<(), AllocError>
    requires totals { AreTotals aggregates.now groups.old totals.old.entries }
    requires orders { AreOrders aggregates.now groups.old orders.old.entries }
    requires room { HasRoom places.now aggregates.now groups.old rows.items }
    requires untouched { touched.old.keys ≡ [] }
    requires none { out.old.items ≡ [] }
    ensures came { OnOk result (AreIn places.now aggregates.now groups.old groups.new rows.items
        touched.new.keys out.new.items) }
    ensures room { OnOk result (HasRoom places.now aggregates.now groups.new []) }
    ensures totals { OnOk result (AreTotals aggregates.now groups.new totals.new.entries) }
    ensures orders { OnOk result (AreOrders aggregates.now groups.new orders.new.entries) }
{
    'rows: for (row, diff) in rows {
        row_in(
            alloc, out, touched, row, diff, places, aggregates, groups, totals, orders,
        )?;
    }
    Ok(())
}

// The rows of a change come in, and the groups of their keys change: the old row of each goes, and
// its new row comes.
fn regrouped(
    alloc: Global,
    rows: Vec<(Row, i128)>,
    places: &[u64],
    aggregates: &[Aggregate],
    groups: &mut KeyedRows,
    totals: &mut IndexMap<Row, Totals>,
    orders: &mut Orders,
) -> Result<Vec<(Row, i128)>, AllocError>
    requires totals { AreTotals aggregates.now groups.old totals.old.entries }
    requires orders { AreOrders aggregates.now groups.old orders.old.entries }
    requires room { HasRoom places.now aggregates.now groups.old rows.items }
    ensures totals { OnOk result (AreTotals aggregates.now groups.new totals.new.entries) }
    ensures orders { OnOk result (AreOrders aggregates.now groups.new orders.new.entries) }
    ensures groups { IfOk result (λ out. AreRegrouped places.now aggregates.now groups.old groups.new
        rows.items out.items) }
{
    let mut out = Vec::new(alloc);
    let mut touched = IndexSet::new(alloc);
    all_in(
        alloc,
        &mut out,
        &mut touched,
        rows,
        places,
        aggregates,
        groups,
        totals,
        orders,
    )?;
    push_all(
        alloc, &mut out, &touched, aggregates, groups, totals, orders,
    )?;
    Ok(out)
}

impl Group {
    /// The groups by the values at some places, each with some aggregates, of which no row was told
    /// yet. Takes no memory.
    pub fn of(alloc: Global, places: Places, aggregates: Aggregates) -> Group
        ensures places { result.places ≡ places }
        ensures aggregates { result.aggregates ≡ aggregates }
        ensures groups { result.groups ≡ [] }
        ensures totals { result.totals.entries ≡ [] }
        ensures orders { result.orders.entries ≡ [] }
    {
        Group {
            places,
            aggregates,
            groups: KeyedRows::empty(alloc),
            totals: IndexMap::new(alloc),
            orders: IndexMap::new(alloc),
        }
    }
}

impl GroupOp {
    /// The groups by the values at some places, each with some aggregates, of which no row was told
    /// yet. Takes no memory.
    pub fn of(alloc: Global, places: Places, aggregates: Aggregates) -> GroupOp
        ensures meaning { ⟦<GroupOp as Operator>⟧.meaning result
            ≡ (λ ls rs. grouped_ints places aggregates ls) }
        ensures fresh { ⟦<GroupOp as Operator>⟧.stands result [] [] }
        ensures upper { ⟦<GroupOp as Operator>⟧.upper result ≡ 0 }
        ensures since { ⟦<GroupOp as Operator>⟧.since result ≡ 0 }
        ensures ready { ⟦<GroupOp as Operator>⟧.broken result ≡ false }
    {
        GroupOp {
            timed: Timed::fresh(Group::of(alloc, places, aggregates)),
        }
    }
}

impl Changing for Group {
    ghost use Rattle.std.specs.Prelude.{refl};
    ghost use Rattle.mz_reduce.specs.Totals.{AreKeptGroups};
    ghost use Rattle.mz_reduce.specs.Laws.{group_load, group_loads, group_reads};

    ghost meaning = { λ op ls rs. grouped_ints op.places op.aggregates ls };

    ghost stands = { λ op ls rs.
        AreKeptGroups op.places op.aggregates op.groups op.totals.entries op.orders.entries ls };

    ghost load = { λ op. group_load };

    ghost reads = { λ op.
        group_reads op.places op.aggregates op.groups op.totals.entries op.orders.entries };

    ghost loads = { λ op. group_loads };

    fn change(
        &mut self,
        alloc: Global,
        left: CountedRows,
        _right: CountedRows,
    ) -> Result<CountedRows, AllocError> {
        let mut rows = left.into_vec();
        let places = self.places.as_slice();
        let aggregates = self.aggregates.as_slice();
        keep_taken(&mut rows, aggregates);
        let groups = &mut self.groups;
        let totals = &mut self.totals;
        let orders = &mut self.orders;
        let out = regrouped(alloc, rows, places, aggregates, groups, totals, orders)?;
        Ok(CountedRows::from_vec(out))
    }
}

impl Operator for GroupOp {
    ghost meaning = { λ op. ⟦<Timed<Group> as Operator>⟧.meaning op.timed };

    ghost stands = { λ op. ⟦<Timed<Group> as Operator>⟧.stands op.timed };

    ghost upper = { λ op. ⟦<Timed<Group> as Operator>⟧.upper op.timed };

    ghost since = { λ op. ⟦<Timed<Group> as Operator>⟧.since op.timed };

    ghost broken = { λ op. ⟦<Timed<Group> as Operator>⟧.broken op.timed };

    ghost bears = { λ op. ⟦<Timed<Group> as Operator>⟧.bears op.timed };

    fn step(
        &mut self,
        alloc: Global,
        left: &Updates,
        right: &Updates,
        next: Time,
    ) -> Result<Updates, AllocError> {
        self.timed.step(alloc, left, right, next)
    }

    fn allow(&mut self, oldest: Time) {
        self.timed.allow(oldest);
    }
}
