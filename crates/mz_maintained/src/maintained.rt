//! A plan whose rows are maintained.
ghost use Rattle.std.specs.Prelude.{◌≡◌, ◌≤◌, ◌+◌, [], ◌∷◌, length, IfOk, IfSome, IsSome, ◌↔◌, OnErr, OnOk, false};
ghost use Rattle.mz_plan.specs.Leaves.{leaves_of};
ghost use Rattle.mz_plan.specs.Small.{most_tables};
ghost use Rattle.mz_maintained.specs.Tables.{told_of};
ghost use Rattle.mz_maintained.specs.Maintained.{AreTold, IsBegun, IsChange, IsSound};

use crate::ChangeFault;
use crate::tables::{grow, updates_at};
use indexmap::IndexMap;
use mz_bag::{Bag, CountedRows};
use mz_dataflow::{Dataflow, laws};
use mz_plan::{MOST_TABLES, Plan};
use mz_time::Time;
use mz_updates::Updates;
use mz_value::TryCopy;
use std::alloc::{AllocError, Global};
use std::marker::Model;

/// The dataflow of a plan, with the rows that its tables have.
#[derive(Drop)]
pub struct Maintained {
    alloc: Global,
    dataflow: Dataflow,
    // Of each table that was told of, its rows.
    tables: IndexMap<u64, Bag>,
    // Whether a change was not carried through: then it stands for nothing.
    broken: bool,
}

impl Model for Maintained {
    ghost use Rattle.std.specs.Prelude.{◌≡◌, false};
    ghost use Rattle.std.specs.Coded.{coded×, coded_list, coded_ℕ, coded_ℤ};
    ghost use Rattle.std.specs.FinMap as map;
    ghost use Rattle.mz_value.specs.contracts.datum.Datum as datum;
    ghost use Rattle.mz_dataflow.specs.contracts.dataflow.Dataflow as the_dataflow;
    ghost use Rattle.mz_maintained.specs.Maintained.{kept_code, Kept, IsSound};

    ghost Value = { Kept };

    ghost coded = { kept_code the_dataflow.the_row.coded
        (map.code (coded_list datum.the_row.coded) coded_ℤ) };

    ghost view = { λ m. record { flow = m.dataflow; tables = m.tables.entries } };

    ghost invariant = { λ m. m.broken ≡ false
        → IsSound (record { flow = m.dataflow; tables = m.tables.entries }) };
}

// Tells a dataflow by how much the rows of a table change at a time, and notes the table's rows then.
fn tell_one(
    alloc: Global,
    dataflow: &mut Dataflow,
    tables: &mut IndexMap<u64, Bag>,
    time: Time,
    table: u64,
    rows: &CountedRows,
) -> Result<(), ChangeFault>
    ensures { OnOk result (AreTold time (told_of ((table, rows.now) ∷ []))
        dataflow.old tables.old.entries dataflow.new tables.new.entries) }
{
    if !grow(alloc, tables, table, rows)? {
        return Err(ChangeFault::Full { table });
    }
    let updates = updates_at(alloc, time, rows.try_copy(alloc)?)?;
    dataflow.offer(table, updates)?;
    Ok(())
}

// Tells a dataflow what changes at a time, one table after another.
fn tell(
    alloc: Global,
    dataflow: &mut Dataflow,
    tables: &mut IndexMap<u64, Bag>,
    time: Time,
    changes: &[(u64, CountedRows)],
) -> Result<(), ChangeFault>
    ensures { OnOk result (AreTold time (told_of changes.now)
        dataflow.old tables.old.entries dataflow.new tables.new.entries) }
{
    'changes: for (table, rows) in changes {
        tell_one(alloc, dataflow, tables, time, *table, rows)?;
    }
    Ok(())
}

// The time after one, where there is one and the dataflow has come no further than this.
fn next_of(dataflow: &Dataflow, time: Time) -> Option<Time>
    ensures { IfSome result (λ next. (next ≡ time + 1) × (dataflow.now.output.upper ≤ time)) }
{
    if time < dataflow.upper() {
        None
    } else {
        Time::new(time.number() + 1)
    }
}

// Carries what changes at a time through a dataflow.
fn carry(
    alloc: Global,
    dataflow: &mut Dataflow,
    tables: &mut IndexMap<u64, Bag>,
    time: Time,
    next: Time,
    changes: &[(u64, CountedRows)],
) -> Result<(), ChangeFault>
    requires sound { IsSound (record { flow = dataflow.old; tables = tables.old.entries }) }
    requires upper { dataflow.old.output.upper ≤ time }
    requires next { next ≡ time + 1 }
    ensures sound { OnOk result
        (IsSound (record { flow = dataflow.new; tables = tables.new.entries })) }
    ensures change { OnOk result (IsChange time (told_of changes.now)
        (record { flow = dataflow.old; tables = tables.old.entries })
        (record { flow = dataflow.new; tables = tables.new.entries })) }
{
    laws::runs_over_few_tables();
    tell(alloc, dataflow, tables, time, changes)?;
    dataflow.run_to(next)?;
    dataflow.allow(time);
    Ok(())
}

impl Maintained {
    /// The plan over tables without a row, to be told what changes from a time on; or `None` where it names more
    /// tables than a query may. O(k) for k operators.
    pub fn build(alloc: Global, plan: &Plan, as_of: Time) -> Result<Option<Maintained>, AllocError>
        ensures begun { IfOk result (λ found. IfSome found (IsBegun plan.now as_of)) }
        ensures few { IfOk result (λ found.
            IsSome found ↔ (length (leaves_of plan.now) ≤ most_tables)) }
    {
        let leaves = plan.leaves(alloc)?;
        if leaves.len() as u64 > MOST_TABLES {
            return Ok(None);
        }
        Ok(Some(Maintained {
            alloc,
            dataflow: Dataflow::build(alloc, plan, as_of)?,
            tables: IndexMap::new(alloc),
            broken: false,
        }))
    }

    /// Tells what changes at a time, of each table that is listed, and carries it through. After a fault other than
    /// `Past` each later call is answered `Memory`. What the dataflow takes, and for each table O(n log n), where
    /// it has n rows then.
    pub fn change(&mut self, time: Time, changes: &[(u64, CountedRows)]) -> Result<(), ChangeFault>
        ensures change { OnOk result (IsChange time (told_of changes.now) self.old self.new) }
    {
        if self.broken {
            return Err(ChangeFault::Memory);
        }
        let Some(next) = next_of(&self.dataflow, time) else {
            return Err(ChangeFault::Past);
        };
        self.broken = true;
        carry(
            self.alloc,
            &mut self.dataflow,
            &mut self.tables,
            time,
            next,
            changes,
        )?;
        self.broken = false;
        Ok(())
    }

    /// What the last change put out: one update for each row, in order of rows. Takes no memory.
    pub fn changes(&self) -> &Updates
        ensures { result.now ≡ self.now.flow.changes }
    {
        self.dataflow.changes()
    }
}
