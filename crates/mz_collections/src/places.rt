//! Collections under their numbers.
ghost use Rattle.std.specs.Prelude.{◌≡◌, ◌-◌, ◌<◌, OnOk, length, map, vec_capacity, vec_len};
ghost use Rattle.mz_rules.specs.Numbering.{Numbered};
ghost use Rattle.mz_rules.specs.Moves.{kept_by as kept_by_of, let_go as let_go_of};
ghost use Rattle.mz_rules.specs.Since.{since_of as since_under};
ghost use Rattle.mz_collections.specs.CollectionBook.{changed, collections_of, come_past as come_past_of, upper_of as upper_under, IsMade};

use crate::moves::{come_past, kept_by, let_go};
use mz_rules::Settled;
use mz_statement::Keep;
use mz_time::{Frontier, Time};
use std::alloc::AllocError;

/// Makes room for what is kept of one collection more. Nothing else changes.
pub fn make_room(
    told: &mut Vec<Frontier>,
    over: &mut Vec<Frontier>,
    live: &mut Vec<u64>,
) -> Result<(), AllocError>
    ensures told { told.new.items ≡ told.old.items }
    ensures over { over.new.items ≡ over.old.items }
    ensures live { live.new.items ≡ live.old.items }
    ensures told_room { OnOk result (vec_len told.new < vec_capacity told.new) }
    ensures over_room { OnOk result (vec_len over.new < vec_capacity over.new) }
    ensures live_room { OnOk result (vec_len live.new < vec_capacity live.new) }
{
    told.reserve(1)?;
    over.reserve(1)?;
    live.reserve(1)
}

/// The since of a collection. O(1).
pub fn since_of(all: &[Settled], number: u64) -> Frontier
    requires numbered { Numbered 1 (collections_of all.now) }
    requires made { IsMade all.now number }
    ensures { result ≡ since_under number all.now }
{
    all[number as usize - 1].since
}

/// The upper of a collection. O(1).
pub fn upper_of(all: &[Settled], number: u64) -> Time
    requires numbered { Numbered 1 (collections_of all.now) }
    requires made { IsMade all.now number }
    ensures { result ≡ upper_under number all.now }
{
    all[number as usize - 1].collection.upper
}

/// A collection has come so far.
pub fn report_at(all: &mut Vec<Settled>, number: u64, upper: Time)
    requires numbered { Numbered 1 (collections_of all.old.items) }
    requires made { IsMade all.old.items number }
    ensures { all.new.items ≡ map (changed number (come_past_of upper)) all.old.items }
{
    come_past(&mut all[number as usize - 1].collection, upper);
}

/// A collection gets another policy.
pub fn keep_at(all: &mut Vec<Settled>, number: u64, keep: Keep)
    requires numbered { Numbered 1 (collections_of all.old.items) }
    requires made { IsMade all.old.items number }
    ensures { all.new.items ≡ map (changed number (kept_by_of keep)) all.old.items }
{
    kept_by(&mut all[number as usize - 1].collection, keep);
}

/// Nothing of a collection is kept for its own sake any more.
pub fn let_go_at(all: &mut Vec<Settled>, number: u64)
    requires numbered { Numbered 1 (collections_of all.old.items) }
    requires made { IsMade all.old.items number }
    ensures { all.new.items ≡ map (changed number let_go_of) all.old.items }
{
    let_go(&mut all[number as usize - 1].collection);
}
