//! What was offered of leaves since the last run, one list for each leaf.
ghost use Rattle.std.specs.Prelude.{◌≡◌, ◌++◌, ℕ, length, take, OnOk, OnErr};
ghost use Rattle.mz_dataflow.specs.Queues.{place_of, updates_of, AreListedOnce};
ghost use Rattle.mz_dataflow.specs.Stands.{with_offer};

use mz_updates::{Update, Updates};
use std::alloc::AllocError;

// Puts updates behind others, or some of them where it answers an `Err`.
fn push_each(updates: &mut Updates, more: Updates) -> Result<(), AllocError>
    ensures kept { take (length updates.old) updates.new ≡ updates.old }
    ensures ok { OnOk result (updates.new ≡ updates.old ++ more) }
{
    'more: for Update { row, time, diff } in more.into_vec() {
        updates.push(row, time, diff)?;
    }
    Ok(())
}

// Puts updates behind others: all of them, or none where it answers an `Err`.
fn push_all(updates: &mut Updates, more: Updates) -> Result<(), AllocError>
    ensures ok { OnOk result (updates.new ≡ updates.old ++ more) }
    ensures err { OnErr result (updates.new ≡ updates.old) }
{
    let len = updates.len();
    let pushed = push_each(updates, more);
    if pushed.is_err() {
        updates.truncate(len);
    }
    pushed
}

// The place of the first list of a leaf, or how many lists there are. O(k), where there are k.
fn place_of(offered: &[(u64, Updates)], leaf: u64) -> usize
    ensures { result ≡ place_of leaf offered.now }
{
    'lists: for place in 0..offered.len() {
        if offered[place].0 == leaf {
            return place;
        }
    }
    offered.len()
}

/// Puts updates behind those of their leaf: all of them, or none where it answers an `Err`. O(k + m), where there are
/// k lists and m updates.
pub fn add_offer(
    offered: &mut Vec<(u64, Updates)>,
    leaf: u64,
    updates: Updates,
) -> Result<(), AllocError>
    ensures ok { OnOk result ((item : ℕ) → updates_of offered.new.items item
        ≡ with_offer leaf updates (updates_of offered.old.items) item) }
    ensures err { OnErr result ((item : ℕ)
        → updates_of offered.new.items item ≡ updates_of offered.old.items item) }
    ensures once { AreListedOnce offered.old.items → AreListedOnce offered.new.items }
{
    let place = place_of(offered, leaf);
    if place < offered.len() {
        let pushed = push_all(&mut offered[place].1, updates);
        return pushed;
    }
    offered.push((leaf, updates))?;
    Ok(())
}
