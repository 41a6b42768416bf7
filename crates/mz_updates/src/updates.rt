//! A list of updates.
ghost use Rattle.std.specs.Prelude.{◌≡◌, ◌↔◌, ◌++◌, ◌∷◌, [], length, IfOk, IsTrue, OnOk, OnErr, ℕ, take};
ghost use Rattle.mz_bag.specs.Weighted.{bag_of};
ghost use Rattle.mz_updates.specs.Consolidated.{IsConsolidated};
ghost use Rattle.mz_updates.specs.Contents.{contents, between as updates_between, compacted, stamped, FitsAt, HasSums, IsBefore, IsFrom, SameContents, SameFrom};

use crate::Update;
use crate::merging::{bag_of_updates, copied_between, merge, move_up, stamped_rows};
use mz_bag::{Bag, CountedRows};
use mz_time::Time;
use mz_value::{Row, TryCopy, copied};
use std::alloc::{AllocError, Global};
use std::marker::Model;

/// Updates in the order in which they were pushed.
#[derive(Debug, Drop)]
pub struct Updates {
    updates: Vec<Update>,
}

impl Model for Updates {
    ghost use Rattle.std.specs.Prelude.{List};
    ghost use Rattle.mz_updates.specs.declared.update.Update.{Update};

    ghost Value = { List Update };

    ghost view = { λ u. u.updates.items };
}

/// A copy of the updates at times from `lower` on and below `upper`, in their order. O(n), where there are n updates.
pub fn between(
    alloc: Global,
    updates: &[Update],
    lower: u64,
    upper: u64,
) -> Result<Updates, AllocError>
    ensures { IfOk result (λ copy. copy ≡ updates_between lower upper updates.now) }
{
    Ok(Updates {
        updates: copied_between(alloc, updates, lower, upper)?,
    })
}

impl Updates {
    /// The list without an update. Takes no memory until the first one is pushed.
    pub fn empty(alloc: Global) -> Updates
        ensures { result ≡ [] }
    {
        Updates {
            updates: Vec::new(alloc),
        }
    }

    /// Puts an update at the end. After an `Err` the list is as before. O(1) amortized.
    pub fn push(&mut self, row: Row, time: Time, diff: i128) -> Result<(), AllocError>
        ensures ok { OnOk result
            (self.new ≡ self.old ++ record { row = row; time = time; diff = diff } ∷ []) }
        ensures err { OnErr result (self.new ≡ self.old) }
    {
        self.updates.push(Update { row, time, diff })?;
        Ok(())
    }

    /// Puts each row at the end, with its count as the diff at a time: all of them, or none where it answers an `Err`.
    /// O(m) amortized, where there are m rows.
    pub fn append(&mut self, time: Time, rows: CountedRows) -> Result<(), AllocError>
        ensures ok { OnOk result (self.new ≡ self.old ++ stamped time rows) }
        ensures err { OnErr result (self.new ≡ self.old) }
    {
        let alloc = *self.updates.allocator();
        let mut more = stamped_rows(alloc, time, rows.into_vec())?;
        self.updates.append(&mut more)?;
        Ok(())
    }

    /// Keeps the first `len` updates, or all where there are fewer. Takes no memory. O(m), where m go.
    pub fn truncate(&mut self, len: usize)
        ensures { self.new ≡ take len self.old }
    {
        self.updates.truncate(len);
    }

    /// The updates, from the first. Takes no memory.
    pub fn as_slice(&self) -> &[Update]
        ensures { result.now ≡ self.now }
    {
        self.updates.as_slice()
    }

    /// The updates, from the first. Takes no memory.
    pub fn into_vec(self) -> Vec<Update>
        ensures { result.items ≡ self }
    {
        self.updates
    }

    /// How many updates there are. Takes no memory.
    pub fn len(&self) -> usize
        ensures { result ≡ length self.now }
    {
        self.updates.len()
    }

    /// Whether there is no update. Takes no memory.
    pub fn is_empty(&self) -> bool
        ensures { IsTrue result ↔ (self.now ≡ []) }
    {
        self.updates.is_empty()
    }

    /// The contents at a time: each row with the sum of its diffs at times not after it. A row whose sum is 0 isn't there.
    /// O(n log n), where n updates are not after the time.
    pub fn contents(&self, t: Time) -> Result<Bag, AllocError>
        requires { FitsAt t self.now }
        ensures { IfOk result (λ bag. bag ≡ bag_of (contents t self.now)) }
    {
        let alloc = *self.updates.allocator();
        let updates = copied_between(alloc, &self.updates, 0, t.number() + 1)?;
        bag_of_updates(alloc, updates, t)
    }

    /// A copy of the updates at times from `lower` on and below `upper`, in their order. O(n), where the list has n updates.
    pub fn between(&self, lower: Time, upper: Time) -> Result<Updates, AllocError>
        ensures { IfOk result (λ copy. copy ≡ updates_between lower upper self.now) }
    {
        between(
            *self.updates.allocator(),
            &self.updates,
            lower.number(),
            upper.number(),
        )
    }

    /// Moves the times before a time up to it, which keeps the contents from there on. Takes no memory.
    /// O(n), where the list has n updates.
    pub fn compact(&mut self, since: Time)
        ensures moved { self.new ≡ compacted since self.old }
        ensures from { IsFrom since self.new }
        ensures contents { SameFrom since self.new self.old }
    {
        move_up(&mut self.updates, since);
    }

    /// Adds up what changes the same row at the same time, which keeps the contents at every time. What adds up to 0 is gone,
    /// and what is left is in order of time and then of row. Takes no memory. O(n log n), where the list has n updates.
    pub fn consolidate(&mut self)
        requires { HasSums self.old }
        ensures contents { SameContents self.new self.old }
        ensures once { IsConsolidated self.new }
        ensures from { (lower : ℕ) → IsFrom lower self.old → IsFrom lower self.new }
        ensures before { (upper : ℕ) → IsBefore upper self.old → IsBefore upper self.new }
    {
        merge(&mut self.updates);
    }
}

impl TryCopy for Updates {
    fn try_copy(&self, alloc: Global) -> Result<Updates, AllocError> {
        Ok(Updates {
            updates: copied(alloc, &self.updates)?,
        })
    }
}
