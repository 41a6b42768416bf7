//! An arrangement: rows with their history.
ghost use Rattle.std.specs.Prelude.{◌≡◌, ◌<◌, ◌≤◌, IfOk, OnOk, OnErr, ℕ};
ghost use Rattle.mz_bag.specs.Bag.{IsStored};
ghost use Rattle.mz_updates.specs.Contents.{IsBefore, IsFrom};
ghost use Rattle.mz_arrange.specs.Arranged.{rows_at, rows_of_key, IsFresh, IsInserted, IsSameFrom, TakesUpdates};

use crate::keeping::{fold, listed, push_all};
use crate::seeking::{found, found_rows};
use mz_bag::Bag;
use mz_time::Time;
use mz_updates::Updates;
use mz_value::Row;
use std::alloc::{AllocError, Global};
use std::collections::BTreeMap;
use std::marker::Model;

/// Rows with a count each, at each time from its since on and below its upper.
#[derive(Drop)]
pub struct Arrangement {
    alloc: Global,
    // The rows at a time up to the since, in order, with their counts.
    rows: BTreeMap<Row, i128>,
    // What changes after that time.
    later: Updates,
    since: Time,
    upper: Time,
    // How many updates were left when those up to the since last went among the rows.
    left: usize,
}

impl Model for Arrangement {
    ghost use Rattle.mz_arrange.specs.Arranged.{Arranged};
    ghost use Rattle.mz_arrange.specs.Kept.{arranged, behind, IsKept};

    ghost Value = { Arranged };

    ghost view = { λ a. arranged (behind a.rows.entries a.later) a.since a.upper };

    ghost invariant = { λ a. IsKept a.rows.entries a.later a.since a.upper };
}

impl Arrangement {
    /// The arrangement without a row, whose since and upper are a time. Takes no memory.
    pub fn at(alloc: Global, as_of: Time) -> Arrangement
        ensures { IsFresh as_of result }
    {
        Arrangement {
            alloc,
            rows: BTreeMap::new(alloc),
            later: Updates::empty(alloc),
            since: as_of,
            upper: as_of,
            left: 0,
        }
    }

    /// The first time at which the rows can be read. From it on each row is there within the bound
    /// on counts. Takes no memory. O(1).
    pub fn since(&self) -> Time
        ensures since { result ≡ self.now.since }
        ensures stored { (t : ℕ) → self.now.since ≤ t → IsStored (rows_at self.now t) }
    {
        self.since
    }

    /// The first time at which not all updates are there yet. Takes no memory. O(1).
    pub fn upper(&self) -> Time
        ensures { result ≡ self.now.upper }
    {
        self.upper
    }

    /// Adds updates at times from the upper on and below the new one. After an `Err` the rows are as
    /// before. O(m) amortized, where there are m updates, but for the calls that first put what the
    /// since has passed among the rows: O(k log n), where k updates came since it last moved, and over
    /// all calls O(log n) for each update.
    pub fn insert(&mut self, updates: Updates, upper: Time) -> Result<(), AllocError>
        requires from { IsFrom self.old.upper updates }
        requires before { IsBefore upper updates }
        requires later { self.old.upper ≤ upper }
        requires fits { TakesUpdates updates self.old }
        ensures ok { OnOk result (IsInserted updates upper self.old self.new) }
        ensures err { OnErr result (IsSameFrom self.old.since self.old self.new) }
    {
        let left = fold(
            self.alloc,
            &mut self.rows,
            &mut self.later,
            self.since,
            self.upper,
            self.left,
        )?;
        self.left = left;
        push_all(&mut self.later, updates)?;
        self.upper = upper;
        Ok(())
    }

    /// The rows at a time. O(n log n), where there are n rows and later updates.
    pub fn read(&self, t: Time) -> Result<Bag, AllocError>
        requires since { self.now.since ≤ t }
        requires upper { t < self.now.upper }
        ensures { IfOk result (λ rows. rows ≡ rows_at self.now t) }
    {
        let all = listed(self.alloc, &self.rows, &self.later)?;
        let rows = all.contents(t)?;
        Ok(rows)
    }

    /// The rows at a time that begin with the values of a key.
    /// O(log n + l + k log k), where there are n rows and l later updates, and k of both are of the
    /// key. Only these are copied.
    pub fn seek(&self, key: &Row, t: Time) -> Result<Bag, AllocError>
        requires since { self.now.since ≤ t }
        requires upper { t < self.now.upper }
        ensures { IfOk result (λ rows. rows ≡ rows_of_key key.now (rows_at self.now t)) }
    {
        let mut all = found_rows(self.alloc, &self.rows, key)?;
        let more = found(self.alloc, self.later.as_slice(), key)?;
        push_all(&mut all, more)?;
        let rows = all.contents(t)?;
        Ok(rows)
    }

    /// Lets the past before a time go. Takes no memory. O(1).
    pub fn allow(&mut self, since: Time)
        requires { self.old.since ≤ since }
        ensures { IsSameFrom since self.old self.new }
    {
        self.since = since;
    }
}
