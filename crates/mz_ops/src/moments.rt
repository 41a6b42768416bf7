//! Updates in order of time, taken one time after another.
ghost use Rattle.std.specs.Prelude.{◌≡◌, ◌∷◌, IfOk, MatchOption};
ghost use Rattle.mz_updates.specs.Contents.{stamp};
ghost use Rattle.mz_ops.specs.Moments.{begins_at, first_time, lesser, IsRun};

use mz_bag::CountedRows;
use mz_time::Time;
use mz_updates::Update;
use mz_value::Row;
use std::alloc::{AllocError, Global};
use std::collections::VecDeque;

// The lesser of two times.
fn earlier(first: Time, second: Time) -> Time
    ensures { result ≡ lesser first second }
{
    if first <= second { first } else { second }
}

/// The first time of two lists that are in order of time, or `None` where both are empty. Takes no
/// memory. O(1).
pub fn first_time(left: &VecDeque<Update>, right: &VecDeque<Update>) -> Option<Time>
    ensures { result ≡ first_time left.now.items right.now.items }
{
    match left.front() {
        None => match right.front() {
            None => None,
            Some(second) => Some(second.time),
        },
        Some(first) => match right.front() {
            None => Some(first.time),
            Some(second) => Some(earlier(first.time, second.time)),
        },
    }
}

// Whether the first update is at a time.
fn begins_at(updates: &VecDeque<Update>, time: Time) -> bool
    ensures { result ≡ begins_at time updates.now.items }
{
    match updates.front() {
        None => false,
        Some(update) => update.time == time,
    }
}

/// Takes the updates at a time from the front, as rows with their diffs. No row is copied. O(m),
/// where m are taken.
pub fn run_at(
    alloc: Global,
    updates: &mut VecDeque<Update>,
    time: Time,
) -> Result<CountedRows, AllocError>
    ensures { IfOk result (λ rows. IsRun time updates.old.items rows updates.new.items) }
{
    let mut rows = Vec::new(alloc);
    'run: while begins_at(updates, time) {
        let Some(Update { row, time: _, diff }) = updates.pop_front() else {
            break;
        };
        rows.push((row, diff))?;
    }
    Ok(CountedRows::from_vec(rows))
}
