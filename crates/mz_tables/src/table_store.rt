//! A table with its past: what it was at each time from its since on.
ghost use Rattle.std.specs.Prelude.{◌≡◌, ◌<◌, ◌≤◌, IfOk, OnOk, OnErr};
ghost use Rattle.mz_updates.specs.Batch.{IsBatch};
ghost use Rattle.mz_tables.specs.Table.{table_at, IsAppended, IsCompacted, IsFresh, TakesChanges};

use crate::parts::{fold, part_of};
use mz_bag::Bag;
use mz_time::Time;
use mz_updates::{Batch, Updates};
use std::alloc::{AllocError, Global};
use std::marker::Model;

/// A table's rows at each time from its since on and below its upper. It can be taken back to what it was at a mark.
#[derive(Drop)]
pub struct TableStore {
    alloc: Global,
    // In order of their times. Those before the since are moved up to it now and then.
    updates: Updates,
    since: Time,
    upper: u64,
    // How many updates there were when those of one row and time were last added up.
    folded: usize,
    // How many updates there were at the mark, and the since and upper then.
    marked: usize,
    marked_since: Time,
    marked_upper: u64,
}

impl Model for TableStore {
    ghost use Rattle.std.specs.Prelude.{◌≤◌, length, take};
    ghost use Rattle.mz_tables.specs.Kept.{book, IsKept};
    ghost use Rattle.mz_tables.specs.Table.{TableBook};
    ghost use Rattle.mz_tables.specs.Twice.{Twice};

    ghost Value = { Twice TableBook };

    ghost view = { λ s. record {
      present = book s.updates s.since s.upper;
      marked = book (take s.marked s.updates) s.marked_since s.marked_upper;
    } };

    ghost invariant = { λ s. (s.marked ≤ length s.updates)
        × IsKept (book s.updates s.since s.upper)
        × IsKept (book (take s.marked s.updates) s.marked_since s.marked_upper) };
}

impl TableStore {
    /// The table without a row, readable from a time on, once something is appended. Takes no memory.
    pub fn at(alloc: Global, as_of: Time) -> TableStore
        ensures { IsFresh as_of result.present }
    {
        TableStore {
            alloc,
            updates: Updates::empty(alloc),
            since: as_of,
            upper: as_of.number(),
            folded: 0,
            marked: 0,
            marked_since: as_of,
            marked_upper: as_of.number(),
        }
    }

    /// The first time at which the table is readable. Takes no memory.
    pub fn since(&self) -> Time
        ensures { result ≡ self.now.present.since }
    {
        self.since
    }

    /// The first time at which the table isn't readable yet. Takes no memory.
    pub fn upper(&self) -> u64
        ensures { result ≡ self.now.present.upper }
    {
        self.upper
    }

    /// Remembers the table as it is now. Takes no memory. O(1).
    pub fn mark(&mut self)
        ensures present { self.new.present ≡ self.old.present }
        ensures marked { self.new.marked ≡ self.old.present }
    {
        self.marked = self.updates.len();
        self.marked_since = self.since;
        self.marked_upper = self.upper;
    }

    /// Gives the table as it was at the last mark again. Takes no memory. O(m), where m updates came since.
    pub fn back(&mut self)
        ensures { self.new.present ≡ self.old.marked }
    {
        self.updates.truncate(self.marked);
        self.since = self.marked_since;
        self.upper = self.marked_upper;
    }

    /// Adds changes at a time, which is then the last. After an `Err` the table is as before; the marked one stays in any case.
    /// O(m log m), where m rows change.
    pub fn append(&mut self, w: Time, changes: &Bag) -> Result<(), AllocError>
        requires time { self.old.present.upper ≤ w }
        requires fits { TakesChanges w changes.now self.old.present }
        ensures marked { self.new.marked ≡ self.old.marked }
        ensures ok { OnOk result (IsAppended w changes.now self.old.present self.new.present) }
        ensures err { OnErr result (self.new.present ≡ self.old.present) }
    {
        self.updates.append(w, changes.counted()?)?;
        self.upper = w.number() + 1;
        Ok(())
    }

    /// Lets the past before a time go. What was marked is lost. Takes no memory.
    /// O(1), but for the calls that add up: over all calls O(log n) for each update that came.
    pub fn compact(&mut self, since: Time)
        requires { self.old.present.since ≤ since }
        ensures { IsCompacted since self.old.present self.new.present }
    {
        self.folded = fold(&mut self.updates, since, self.upper, self.folded);
        self.since = since;
        self.marked = self.updates.len();
        self.marked_since = since;
        self.marked_upper = self.upper;
    }

    /// The rows at a time from the since on. O(n log n), where n updates are kept.
    pub fn contents(&self, t: Time) -> Result<Bag, AllocError>
        requires { self.now.present.since ≤ t }
        ensures { IfOk result (λ rows. rows ≡ table_at self.now.present t) }
    {
        self.updates.contents(t)
    }

    /// The batch up to `to` for one who has no contents of the table from `ready` on. Its number of the table is 0.
    /// O(k log k + log n), where n updates are kept and k of them are from `ready` on; k is n where the batch is whole.
    pub fn batch(&self, ready: u64, to: Time) -> Result<Batch, AllocError>
        requires since { self.now.present.since ≤ to }
        requires upper { to < self.now.present.upper }
        ensures table { IfOk result (λ batch. batch.table ≡ 0) }
        ensures batch { IfOk result (λ batch. let now = self.now.present in
            IsBatch (table_at now) now.since ready to batch) }
    {
        let whole = ready <= self.since.number();
        let since = self.since;
        let updates = part_of(self.alloc, self.updates.as_slice(), since, ready, to, whole)?;
        Ok(Batch {
            table: 0,
            lower: ready,
            to,
            since,
            whole,
            updates,
        })
    }
}
