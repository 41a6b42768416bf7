//! The oldest index on each item in each cluster.
ghost use Rattle.std.specs.Prelude.{◌≡◌, ℕ, ◌<◌, None, Some, OnOk, IfOk, IfSome, IsSome, if◌then◌else◌};
ghost use Rattle.std.specs.Option.{option_or};
ghost use Rattle.indexmap.specs.IndexMap.{spare, values};
ghost use Rattle.mz_plan.specs.Items.{oldest_index};
ghost use Rattle.mz_catalog.specs.Oldest.{index_place, is_at, kept_at, same_place};

use crate::entries::oldest_index;
use indexmap::IndexMap;
use mz_plan::{Item, ItemKind};
use mz_value::Name;
use std::alloc::AllocError;

/// The item that an index is on, and its cluster; None for what is no index. Takes no memory.
pub fn index_place(item: &Item) -> Option<(u64, u64)>
    ensures { result ≡ index_place item.now }
{
    match &item.kind {
        ItemKind::Index(on, _) => Some((*on, item.cluster)),
        _ => None,
    }
}

/// The number that is kept for an item and a cluster. O(1) expected.
pub fn kept_at(oldest: &IndexMap<(u64, u64), u64>, on: u64, cluster: u64) -> Option<u64>
    ensures { result ≡ kept_at oldest.now.entries (on, cluster) }
{
    match oldest.get(&(on, cluster)) {
        Some(number) => Some(*number),
        None => None,
    }
}

/// Makes room for one number more.
pub fn make_room(oldest: &mut IndexMap<(u64, u64), u64>) -> Result<(), AllocError>
    ensures entries { oldest.new.entries ≡ oldest.old.entries }
    ensures ok { OnOk result (0 < spare oldest.new) }
{
    oldest.reserve(1)
}

// Keeps the number for a place.
fn put_at(oldest: &mut IndexMap<(u64, u64), u64>, place: (u64, u64), number: u64)
    requires { 0 < spare oldest.old }
    ensures { (other : ℕ × ℕ) → kept_at oldest.new.entries other
        ≡ (if same_place place other then Some number else kept_at oldest.old.entries other) }
{
    match oldest.insert(place, number) {
        Ok(_) => (),
        Err(_) => unreachable!(),
    }
}

/// Keeps the number of an index that is newer than all before, unless there is one for its place. O(1) expected.
pub fn note(oldest: &mut IndexMap<(u64, u64), u64>, place: Option<(u64, u64)>, number: u64)
    requires { 0 < spare oldest.old }
    ensures { (other : ℕ × ℕ) → kept_at oldest.new.entries other
        ≡ option_or (kept_at oldest.old.entries other) (if is_at other place then Some number else None) }
{
    if let Some(place) = place {
        if !oldest.contains_key(&place) {
            put_at(oldest, place, number);
        }
    }
}

// Keeps this number for a place that has one, or none from now on.
fn replace_at(oldest: &mut IndexMap<(u64, u64), u64>, place: (u64, u64), number: Option<u64>)
    requires { IsSome (kept_at oldest.old.entries place) }
    ensures { (other : ℕ × ℕ) → kept_at oldest.new.entries other
        ≡ (if same_place place other then number else kept_at oldest.old.entries other) }
{
    match number {
        Some(number) => match oldest.insert(place, number) {
            Ok(_) => (),
            Err(_) => unreachable!(),
        },
        None => drop(oldest.swap_remove(&place)),
    }
}

/// Keeps for the place of an index that is gone the oldest one of those that are left. O(n), where there are n items.
pub fn renew(
    oldest: &mut IndexMap<(u64, u64), u64>,
    place: Option<(u64, u64)>,
    items: &IndexMap<Name, Item>,
)
    requires { IfSome place (λ there. IsSome (kept_at oldest.old.entries there)) }
    ensures { (other : ℕ × ℕ) → kept_at oldest.new.entries other
        ≡ (if is_at other place then oldest_index (values items.now) other.1 other.0
        else kept_at oldest.old.entries other) }
{
    if let Some((on, cluster)) = place {
        replace_at(oldest, (on, cluster), oldest_index(items, on, cluster));
    }
}

/// A copy. O(n), where there are n numbers.
pub fn copied_oldest(
    oldest: &IndexMap<(u64, u64), u64>,
) -> Result<IndexMap<(u64, u64), u64>, AllocError>
    ensures { IfOk result (λ copy. copy.entries ≡ oldest.now.entries) }
{
    oldest.clone()
}
