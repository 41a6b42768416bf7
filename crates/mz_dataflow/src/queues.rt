//! Updates of leaves in order of time, taken one time after another.
ghost use Rattle.std.specs.Prelude.{◌≡◌, map, IfOk};
ghost use Rattle.mz_ops.specs.Moments.{begins_at, lesser, IsRun};
ghost use Rattle.mz_dataflow.specs.Queues.{begins, next_time, sooner, AreTaken, IsTaken};

use mz_bag::CountedRows;
use mz_time::Time;
use mz_updates::Update;
use std::alloc::{AllocError, Global};
use std::collections::VecDeque;

// The lesser of two times.
fn earlier(first: Time, second: Time) -> Time
    ensures { result ≡ lesser first second }
{
    if first <= second { first } else { second }
}

// The lesser of two times, where there are both.
fn sooner(first: Option<Time>, second: Option<Time>) -> Option<Time>
    ensures { result ≡ sooner first second }
{
    match (first, second) {
        (Some(time), Some(other)) => Some(earlier(time, other)),
        (Some(time), None) => Some(time),
        (None, other) => other,
    }
}

// The time of the first update. Takes no memory. O(1).
fn begins(updates: &VecDeque<Update>) -> Option<Time>
    ensures { result ≡ begins updates.now.items }
{
    match updates.front() {
        None => None,
        Some(update) => Some(update.time),
    }
}

// Whether the first update is at a time.
fn begins_at(updates: &VecDeque<Update>, time: Time) -> bool
    ensures { result ≡ begins_at time updates.now.items }
{
    match updates.front() {
        None => false,
        Some(update) => update.time == time,
    }
}

/// The first time of all lists, which are in order of time. Takes no memory. O(k), where there are k lists.
pub fn next_time(queues: &[(u64, VecDeque<Update>)]) -> Option<Time>
    ensures { result ≡ next_time (map (λ q. (q.0, q.1.items)) queues.now) }
{
    match queues {
        [] => None,
        [first, rest @ ..] => sooner(begins(&first.1), next_time(rest)),
    }
}

// Takes the updates at a time from the front, as rows with their diffs. No row is copied. O(m),
// where m are taken.
fn run_at(
    alloc: Global,
    updates: &mut VecDeque<Update>,
    time: Time,
) -> Result<CountedRows, AllocError>
    ensures { IfOk result (λ rows. IsRun time updates.old.items rows updates.new.items) }
{
    let mut rows = Vec::new(alloc);
    'run: while begins_at(updates, time) {
        let Some(Update { row, time: _, diff }) = updates.pop_front() else {
            break;
        };
        rows.push((row, diff))?;
    }
    Ok(CountedRows::from_vec(rows))
}

// Takes the updates at a time from the front of a leaf's.
fn taken_at(
    alloc: Global,
    queue: &mut (u64, VecDeque<Update>),
    time: Time,
) -> Result<(u64, CountedRows), AllocError>
    ensures { IfOk result (λ taken. IsTaken time
        (queue.old.0, queue.old.1.items) taken (queue.new.0, queue.new.1.items)) }
{
    let rows = run_at(alloc, &mut queue.1, time)?;
    Ok((queue.0, rows))
}

/// Takes the updates at a time from the front of each list. O(k + m), where there are k lists, and m
/// updates are taken.
pub fn changes_at(
    alloc: Global,
    queues: &mut Vec<(u64, VecDeque<Update>)>,
    time: Time,
) -> Result<Vec<(u64, CountedRows)>, AllocError>
    ensures { IfOk result (λ changes. AreTaken time
        (map (λ q. (q.0, q.1.items)) queues.old.items) changes.items
        (map (λ q. (q.0, q.1.items)) queues.new.items)) }
{
    let mut changes = Vec::new(alloc);
    'queues: for place in 0..queues.len() {
        let taken = taken_at(alloc, &mut queues[place], time)?;
        changes.push(taken)?;
    }
    Ok(changes)
}
