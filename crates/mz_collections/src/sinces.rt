//! The pass over the collections that aren't done, from the newest to the oldest.
ghost use Rattle.std.specs.Prelude.{◌≡◌, ◌+◌, ◌≤◌, ◌<◌, ◌-◌, ◌++◌, ℕ, Some, length, map, slice_get, slice_set};
ghost use Rattle.std.specs.List.{AllByRecursion as Each};
ghost use Rattle.mz_time.specs.Frontier.{meet};
ghost use Rattle.mz_rules.specs.declared.capability.Settled.{Settled};
ghost use Rattle.mz_rules.specs.Capabilities.{of_hold};
ghost use Rattle.mz_rules.specs.Frontiers.{is_at};
ghost use Rattle.mz_rules.specs.Since.{settle, own as own_of};
ghost use Rattle.mz_collections.specs.CollectionBook.{collections_of};
ghost use Rattle.mz_collections.specs.Kept.{live_of, passed_on, passed_to, put_at, AreAtRest, AreIdle, IsOlder, ReadOlderOnes};
ghost use Rattle.mz_collections.specs.Pass.{CanSettle, IsSettledAt};
ghost use Rattle.mz_rules.specs.Numbering.{Numbered};

use mz_holds::HoldTable;
use mz_rules::{Collection, Settled};
use mz_time::Frontier;

// The least that a collection's own capabilities keep.
fn own(this: &Collection, holds: &HoldTable, peeks: &HoldTable) -> Frontier
    ensures { result ≡ own_of (map of_hold holds.now.present.live
        ++ map of_hold peeks.now.present.live) this.now }
{
    let held = holds.least(this.number).meet(peeks.least(this.number));
    this.implied.meet(held)
}

// What is passed on to a collection is this.
fn put(over: &mut Vec<Frontier>, number: u64, f: Frontier)
    requires low { 0 < number }
    requires high { number ≤ length over.old.items }
    ensures passed { (n : ℕ) → 0 < n → passed_to n over.new.items
        ≡ put_at f number n (passed_to n over.old.items) }
    ensures len { length over.new.items ≡ length over.old.items }
{
    over[number as usize - 1] = f;
}

// What is passed on to a collection.
fn passed(over: &[Frontier], number: u64) -> Frontier
    requires low { 0 < number }
    requires high { number ≤ length over.now }
    ensures { result ≡ passed_to number over.now }
{
    over[number as usize - 1]
}

// Passes a since on to the collections that are read. O(k) for k of them.
fn pass_on(over: &mut Vec<Frontier>, inputs: &[u64], since: &Frontier)
    requires { Each (IsOlder (length over.old.items + 1)) inputs.now }
    ensures passed { (n : ℕ) → 0 < n → passed_to n over.new.items
        ≡ passed_on since.now inputs.now n (passed_to n over.old.items) }
    ensures len { length over.new.items ≡ length over.old.items }
{
    if let [first, rest @ ..] = inputs {
        put(over, *first, since.meet(passed(over, *first)));
        pass_on(over, rest, since);
    }
}

// Passes the since of a collection on to those that it reads.
fn hand_on(over: &mut Vec<Frontier>, this: &Settled)
    requires { Each (IsOlder (length over.old.items + 1)) this.now.collection.inputs }
    ensures passed { (n : ℕ) → 0 < n → passed_to n over.new.items
        ≡ passed_on this.now.since this.now.collection.inputs n (passed_to n over.old.items) }
    ensures len { length over.new.items ≡ length over.old.items }
{
    pass_on(over, this.collection.inputs.as_slice(), &this.since);
}

// Whether the collection isn't done.
fn is_time(this: &Settled) -> bool
    ensures { result ≡ is_at this.now.since }
{
    matches!(this.since, Frontier::At(_))
}

// Settles the collection of this number, once all newer ones are, and passes its since on. Gives whether it isn't done.
fn settle_at(
    all: &mut Vec<Settled>,
    over: &mut Vec<Frontier>,
    number: u64,
    holds: &HoldTable,
    peeks: &HoldTable,
) -> bool
    requires { CanSettle number all.old.items over.old.items }
    ensures { (s : Settled) → slice_get all.old.items (number - 1) ≡ Some s
        → IsSettledAt (map of_hold holds.now.present.live ++ map of_hold peeks.now.present.live)
        number s all.old.items over.old.items result all.new.items over.new.items }
{
    let place = number as usize - 1;
    let since = own(&all[place].collection, holds, peeks).meet(passed(over, number));
    all[place].since = since;
    put(over, number, Frontier::Done);
    hand_on(over, &all[place]);
    is_time(&all[place])
}

/// Settles the sinces in place, from the newest down, over the collections that aren't done, and leaves out those that are then.
/// Takes no memory. O(n + k), where n aren't done and read k others in all.
pub fn settle_live(
    all: &mut Vec<Settled>,
    over: &mut Vec<Frontier>,
    live: &mut Vec<u64>,
    holds: &HoldTable,
    peeks: &HoldTable,
)
    requires numbered { Numbered 1 (collections_of all.old.items) }
    requires as_many { length over.old.items ≡ length all.old.items }
    requires older { ReadOlderOnes all.old.items }
    requires listed { live.old.items ≡ live_of all.old.items }
    requires idle { AreIdle over.old.items all.old.items }
    requires rest { AreAtRest (map of_hold holds.now.present.live)
        (map of_hold peeks.now.present.live) all.old.items }
    ensures settled { all.new.items
        ≡ settle (map of_hold holds.now.present.live ++ map of_hold peeks.now.present.live)
        (collections_of all.old.items) }
    ensures as_many { length over.new.items ≡ length over.old.items }
    ensures listed { live.new.items ≡ live_of all.new.items }
    ensures idle { AreIdle over.new.items all.new.items }
{
    let mut place = live.len();
    'down: while place > 0 {
        place -= 1;
        let number = live[place];
        if !settle_at(all, over, number, holds, peeks) {
            live.remove(place);
        }
    }
}
