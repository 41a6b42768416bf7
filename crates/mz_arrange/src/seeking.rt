//! What a key finds.
ghost use Rattle.std.specs.Prelude.{◌≡◌, ◌++◌, ◌∷◌, [], IfOk, OnOk};
ghost use Rattle.mz_updates.specs.Contents.{stamped};
ghost use Rattle.mz_arrange.specs.Arranged.{begins_with, of_key};
ghost use Rattle.mz_arrange.specs.Kept.{found};

use crate::keeping::push_row;
use mz_updates::{Update, Updates};
use mz_value::{Row, TryCopy};
use std::alloc::{AllocError, Global};
use std::collections::BTreeMap;

// Whether a row begins with the values of a key.
fn begins_with(key: &Row, row: &Row) -> bool
    ensures { result ≡ begins_with key.now row.now }
{
    row.as_slice().starts_with(key.as_slice())
}

// Puts a copy of an update at the end.
fn push_copy(alloc: Global, updates: &mut Updates, update: &Update) -> Result<(), AllocError>
    ensures { OnOk result (updates.new ≡ updates.old ++ update.now ∷ []) }
{
    updates.push(update.row.try_copy(alloc)?, update.time, update.diff)
}

/// A copy of the updates whose row begins with the values of a key, in their order.
/// O(n), where there are n updates.
pub fn found(alloc: Global, updates: &[Update], key: &Row) -> Result<Updates, AllocError>
    ensures { IfOk result (λ copy. copy ≡ found key.now updates.now) }
{
    let mut copy = Updates::empty(alloc);
    'updates: for update in updates {
        if begins_with(key, &update.row) {
            push_copy(alloc, &mut copy, update)?;
        }
    }
    Ok(copy)
}

/// A copy of the rows that begin with the values of a key, each with its count as the diff at the
/// first time. They stand side by side, so it takes O(log n + k), where k of n rows are of the key.
pub fn found_rows(
    alloc: Global,
    rows: &BTreeMap<Row, i128>,
    key: &Row,
) -> Result<Updates, AllocError>
    ensures { IfOk result (λ copy. copy ≡ stamped 0 (of_key key.now rows.now.entries)) }
{
    let mut copy = Updates::empty(alloc);
    'rows: for (row, count) in rows.range(key..) {
        let is_of_key = begins_with(key, row);
        if !is_of_key {
            return Ok(copy);
        }
        push_row(alloc, &mut copy, row, *count)?;
    }
    Ok(copy)
}
