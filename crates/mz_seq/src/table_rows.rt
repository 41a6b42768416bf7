//! The rows of one table, and what came to them since a mark.
ghost use Rattle.std.specs.Prelude.{◌≡◌, ◌≤◌, ◌+◌, length, IfOk, OnOk, OnErr, List};
ghost use Rattle.std.specs.FinMap.{empty, entries};
ghost use Rattle.mz_value.specs.declared.datum.Datum.{Datum};
ghost use Rattle.mz_bag.specs.Mass.{mass};
ghost use Rattle.mz_bag.specs.Weighted.{each_once, negated};
ghost use Rattle.mz_plan.specs.Operators.{filtered};
ghost use Rattle.mz_plan.specs.Small.{most_rows};
ghost use Rattle.mz_log.specs.Sequential.{added, difference};
ghost use Rattle.mz_log.specs.CarriedOut.{meets, rows_in};
ghost use Rattle.mz_seq.specs.Stored.{count_at};

use crate::change::{bag_of_rows, rows_met};
use crate::counts::{add_each, copied_rows, put, sweep};
use indexmap::IndexMap;
use mz_bag::Bag;
use mz_plan::Cond;
use mz_value::Row;
use std::alloc::{AllocError, Global};
use std::marker::Model;
use std::mem;

/// The rows of a table as they are, and as they were at a mark.
#[derive(Drop)]
pub struct TableRows {
    // Each row with its count. A row of the mark that is gone keeps its place with the count 0.
    counts: IndexMap<Row, i128>,
    // How many rows there are, each as often as it is there.
    rows: u64,
    // How many there were at the mark.
    before: u64,
    // What came since the mark.
    changes: Bag,
}

impl Model for TableRows {
    ghost use Rattle.std.specs.Coded.{coded_list, coded_ℤ};
    ghost use Rattle.std.specs.FinMap as map;
    ghost use Rattle.mz_value.specs.contracts.datum.Datum as datum;
    ghost use Rattle.mz_bag.specs.Bag.{Counts};
    ghost use Rattle.mz_seq.specs.Stored.{rows_now, rows_then, IsKept};
    ghost use Rattle.mz_marked.specs.Twice.{Twice, twice_code};

    ghost Value = { Twice Counts };

    ghost coded = { twice_code (map.code (coded_list datum.the_row.coded) coded_ℤ) };

    ghost view = { λ s. record {
      present = rows_now s.counts.entries;
      marked = rows_then s.counts.entries s.changes;
    } };

    ghost invariant = { λ s. IsKept s.counts.entries s.rows s.before s.changes };
}

impl TableRows {
    /// No rows, now and at the mark. Takes no memory until the first come.
    pub fn empty(alloc: Global) -> TableRows
        ensures present { result.present ≡ empty }
        ensures marked { result.marked ≡ empty }
    {
        TableRows {
            counts: IndexMap::new(alloc),
            rows: 0,
            before: 0,
            changes: Bag::empty(alloc),
        }
    }

    /// How many rows there are, each as often as it is there. Takes no memory. O(1).
    pub fn rows(&self) -> u64
        ensures rows { result ≡ rows_in self.now.present }
        ensures few { rows_in self.now.present ≤ most_rows }
    {
        self.rows
    }

    /// A copy of the rows. O(n) expected, where n rows are stored.
    pub fn bag(&self) -> Result<Bag, AllocError>
        ensures { IfOk result (λ bag. bag ≡ self.now.present) }
    {
        copied_rows(&self.counts)
    }

    /// What came since the mark. Takes no memory. O(1).
    pub fn changes(&self) -> &Bag
        ensures { result.now ≡ difference self.now.marked self.now.present }
    {
        &self.changes
    }

    /// Adds rows, one that is named twice twice. After an `Err` the rows are as before. O(m) expected, where there
    /// are m rows.
    pub fn insert(&mut self, rows: &[Row]) -> Result<(), AllocError>
        requires { rows_in self.old.present + length rows.now ≤ most_rows }
        ensures ok { OnOk result (self.new.present ≡ added self.old.present (each_once rows.now)) }
        ensures err { OnErr result (self.new.present ≡ self.old.present) }
        ensures marked { self.new.marked ≡ self.old.marked }
    {
        let change = bag_of_rows(*self.counts.allocator(), rows)?;
        put(&mut self.counts, &mut self.changes, &change)?;
        self.rows = self.rows + rows.len() as u64;
        Ok(())
    }

    /// Takes out the rows that meet the condition, or all where there is none, and tells how many went. After an `Err`
    /// the rows are as before. O(n), where n rows are stored, and O(1) expected more for each that goes.
    pub fn delete(&mut self, cond: &Option<Cond>) -> Result<u64, AllocError>
        ensures ok { OnOk result (self.new.present
            ≡ added self.old.present
            (negated (filtered (meets cond.now) (entries self.old.present)))) }
        ensures number { IfOk result
            (λ n. n ≡ mass (filtered (meets cond.now) (entries self.old.present))) }
        ensures err { OnErr result (self.new.present ≡ self.old.present) }
        ensures marked { self.new.marked ≡ self.old.marked }
    {
        let met = rows_met(*self.counts.allocator(), &self.counts, cond)?;
        put(&mut self.counts, &mut self.changes, &met.gone)?;
        self.rows = self.rows - met.number;
        Ok(met.number)
    }

    /// Goes back to the rows of the mark. Takes no memory. O(m) expected, where m rows changed since.
    pub fn back(&mut self)
        ensures present { self.new.present ≡ self.old.marked }
        ensures marked { self.new.marked ≡ self.old.marked }
    {
        let mut gone = mem::replace(&mut self.changes, Bag::empty(*self.counts.allocator()));
        gone.negate();
        let rows = gone.counts();
        add_each(&mut self.counts, rows);
        sweep(&mut self.counts, rows, &self.changes);
        self.rows = self.before;
    }

    /// Sets the mark: the rows of now can be gone back to. Takes no memory. O(m) expected, where m rows changed since the
    /// last.
    pub fn mark(&mut self)
        ensures present { self.new.present ≡ self.old.present }
        ensures marked { self.new.marked ≡ self.old.present }
    {
        let changes = mem::replace(&mut self.changes, Bag::empty(*self.counts.allocator()));
        sweep(&mut self.counts, changes.counts(), &self.changes);
        self.before = self.rows;
    }
}
