//! The reduced list of lines.
ghost use Rattle.std.specs.Prelude.{◌≡◌, ◌++◌, ◌∷◌, [], ℕ, IfOk, OnOk};
ghost use Rattle.std.specs.BTreeMap.{get};
ghost use Rattle.std.specs.BTreeSet.{contains};
ghost use Rattle.std.specs.Ordering.{nat_cmp};
ghost use Rattle.mz_rules.specs.Reduced.{creations_left, peeks_left, reduced};
ghost use Rattle.mz_history.specs.Kept.{AreFound};
ghost use Rattle.mz_history.specs.Reducing.{found_or_first, HasEnded};

use crate::lines::Commands;
use crate::named::{found, named_by};
use mz_plan::Command;
use mz_time::{Frontier, Time};
use mz_value::Listed;
use std::alloc::{AllocError, Global};
use std::collections::{BTreeMap, BTreeSet};

// The peeks that the lines end.
fn ended_by(alloc: Global, lines: &[Command]) -> Result<BTreeSet<u64>, AllocError>
    ensures { IfOk result (λ ended. HasEnded ended lines.now) }
{
    let mut ended = BTreeSet::new(alloc);
    'lines: for line in lines {
        if let Command::Retire { peek } = line {
            ended.insert(*peek)?;
        }
    }
    Ok(ended)
}

// What the lines tell of a collection, as it is found.
fn told_of(named: &BTreeMap<u64, Frontier>, collection: u64) -> Frontier
    ensures { result ≡ found_or_first (get nat_cmp named.now collection) }
{
    match found(named, collection) {
        Some(f) => f,
        None => Frontier::At(Time::zero()),
    }
}

// Puts down each collection that is made and not dropped, as of what is told of it.
fn put_creations(
    alloc: Global,
    left: &mut Vec<Command>,
    named: &BTreeMap<u64, Frontier>,
    lines: &[Command],
) -> Result<(), AllocError>
    ensures { OnOk result (left.new.items ≡ left.old.items ++ creations_left (λ number. found_or_first (get nat_cmp named.now number)) lines.now) }
{
    'lines: for line in lines {
        put_creation(alloc, left, named, line)?;
    }
    Ok(())
}

// Puts one collection down, where the line makes one that isn't dropped.
fn put_creation(
    alloc: Global,
    left: &mut Vec<Command>,
    named: &BTreeMap<u64, Frontier>,
    line: &Command,
) -> Result<(), AllocError>
    ensures { OnOk result (left.new.items ≡ left.old.items ++ creations_left (λ number. found_or_first (get nat_cmp named.now number)) (line.now ∷ [])) }
{
    if let Command::Create {
        collection,
        plan,
        ..
    } = line
        && let Frontier::At(as_of) = told_of(named, *collection)
    {
        left.push(Command::Create {
            collection: *collection,
            plan: plan.try_copy(alloc)?,
            as_of,
        })?;
    }
    Ok(())
}

// Puts down each peek that isn't ended.
fn put_peeks(
    left: &mut Vec<Command>,
    ended: &BTreeSet<u64>,
    lines: &[Command],
) -> Result<(), AllocError>
    ensures { OnOk result (left.new.items ≡ left.old.items ++ peeks_left (λ peek. contains nat_cmp ended.now peek) lines.now) }
{
    'lines: for line in lines {
        put_peek(left, ended, line)?;
    }
    Ok(())
}

// Puts one peek down, where the line asks for one that isn't ended.
fn put_peek(
    left: &mut Vec<Command>,
    ended: &BTreeSet<u64>,
    line: &Command,
) -> Result<(), AllocError>
    ensures { OnOk result (left.new.items ≡ left.old.items ++ peeks_left (λ peek. contains nat_cmp ended.now peek) (line.now ∷ [])) }
{
    if let Command::Peek {
        peek,
        collection,
        time,
    } = line
        && !ended.contains(peek)
    {
        left.push(Command::Peek {
            peek: *peek,
            collection: *collection,
            time: *time,
        })?;
    }
    Ok(())
}

// The lines that are left, of those that name this and end that.
fn left_of(
    alloc: Global,
    named: &BTreeMap<u64, Frontier>,
    ended: &BTreeSet<u64>,
    lines: &[Command],
) -> Result<Commands, AllocError>
    requires named { AreFound named.now lines.now }
    requires ended { HasEnded ended.now lines.now }
    ensures { IfOk result (λ left. left ≡ reduced lines.now) }
{
    let mut left = Vec::new(alloc);
    put_creations(alloc, &mut left, named, lines)?;
    put_peeks(&mut left, ended, lines)?;
    Ok(Listed::from_vec(left))
}

/// The reduced list of these lines: each collection that they make and don't drop, as of the greatest frontier that they name for it,
/// and each peek that they ask for and don't end. O(n log n).
pub fn reduce(alloc: Global, list: &Commands) -> Result<Commands, AllocError>
    ensures { IfOk result (λ left. left ≡ reduced list.now) }
{
    let lines = list.as_slice();
    let named = named_by(alloc, lines)?;
    let ended = ended_by(alloc, lines)?;
    left_of(alloc, &named, &ended, lines)
}
