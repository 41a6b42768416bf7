//! How often each replica has joined.
ghost use Rattle.std.specs.Prelude.{◌≡◌, ◌+◌, ◌<◌, ◌≤◌, ◌^◌, ◌++◌, ◌∷◌, [], ℕ, IfOk, OnErr, OnOk, Some, bytes_eq, length, map, take};
ghost use Rattle.std.specs.List.{position};
ghost use Rattle.mz_history.specs.Kept.{joined_first, markeds, marked_now, presents, taken_back};
ghost use Rattle.mz_history.specs.StreamBook.{once_more, times_of};

use crate::joining::Joining;
use mz_value::Name;
use std::alloc::{AllocError, Global};

/// The greatest number of an incarnation. No run reaches it: past it there is no memory for one more.
pub const MOST_JOININGS: u64 = u64::MAX - 65;

// Where a replica stands, if it has joined.
fn place_of(joinings: &[Joining], replica: &Name) -> Option<usize>
    ensures { result ≡ position (λ joining. bytes_eq joining.present.replica replica.now) joinings.now }
{
    joinings.iter().position(|joining| joining.is_of(replica))
}

/// How often a replica has joined. Takes no memory.
pub fn times_in(joinings: &[Joining], replica: &Name) -> u64
    ensures { result ≡ times_of replica.now (presents joinings.now) }
{
    match joinings {
        [] => 0,
        [first, rest @ ..] => {
            if first.is_of(replica) {
                first.times()
            } else {
                times_in(rest, replica)
            }
        }
    }
}

/// The number of the next incarnation, where there is one. Takes no memory.
pub fn next_of(joinings: &[Joining], replica: &Name) -> Result<u64, AllocError>
    ensures { IfOk result (λ times. times ≡ times_of replica.now (presents joinings.now) + 1) }
{
    let times = times_in(joinings, replica);
    if times < MOST_JOININGS {
        Ok(times + 1)
    } else {
        Err(AllocError)
    }
}

// A replica that has joined, and stands at this place, joins once more. What was marked stays. Takes no memory.
fn join_at(joinings: &mut Vec<Joining>, replica: &Name, place: usize)
    requires there { Some place ≡ position (λ joining. bytes_eq joining.present.replica replica.now) joinings.old.items }
    requires fits { times_of replica.now (presents joinings.old.items) + 1 < 2 ^ 64 }
    ensures marked { (mark : ℕ) → markeds (take mark joinings.new.items) ≡ markeds (take mark joinings.old.items) }
    ensures longer { length joinings.old.items ≤ length joinings.new.items }
    ensures ok { presents joinings.new.items ≡ once_more replica.now (presents joinings.old.items) }
{
    joinings[place].join();
}

// A replica joins that never has. After an `Err` all is as before.
fn join_first(joinings: &mut Vec<Joining>, alloc: Global, replica: &Name) -> Result<(), AllocError>
    ensures ok { OnOk result (joinings.new.items ≡ joinings.old.items ++ joined_first replica.now ∷ []) }
    ensures err { OnErr result (joinings.new.items ≡ joinings.old.items) }
{
    let joining = Joining::first(alloc, replica)?;
    joinings.push(joining)?;
    Ok(())
}

/// A replica has joined once more. After an `Err` all is as before. What was marked stays.
pub fn join_once_more(
    joinings: &mut Vec<Joining>,
    alloc: Global,
    replica: &Name,
) -> Result<(), AllocError>
    requires { times_of replica.now (presents joinings.old.items) + 1 < 2 ^ 64 }
    ensures marked { (mark : ℕ) → mark ≤ length joinings.old.items
        → markeds (take mark joinings.new.items) ≡ markeds (take mark joinings.old.items) }
    ensures longer { length joinings.old.items ≤ length joinings.new.items }
    ensures ok { OnOk result (presents joinings.new.items ≡ once_more replica.now (presents joinings.old.items)) }
    ensures err { OnErr result (joinings.new.items ≡ joinings.old.items) }
{
    match place_of(joinings, replica) {
        Some(place) => {
            join_at(joinings, replica, place);
            Ok(())
        }
        None => {
            join_first(joinings, alloc, replica)?;
            Ok(())
        }
    }
}

/// How many there are. Takes no memory.
pub fn count(joinings: &[Joining]) -> usize
    ensures { result ≡ length joinings.now }
{
    joinings.len()
}

/// Remembers how often each. Takes no memory.
pub fn mark_all(joinings: &mut Vec<Joining>)
    ensures { joinings.new.items ≡ map marked_now joinings.old.items }
{
    'each: for place in 0..joinings.len() {
        joinings[place].mark();
    }
}

/// Each as often as at the mark again. Takes no memory.
pub fn take_all_back(joinings: &mut Vec<Joining>)
    ensures { joinings.new.items ≡ map taken_back joinings.old.items }
{
    'each: for place in 0..joinings.len() {
        joinings[place].back();
    }
}
