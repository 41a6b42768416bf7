//! Holds in order of their numbers.
ghost use Rattle.std.specs.Prelude.{◌≡◌, ◌<◌, ◌==◌, IsSome, Some, filter, length, map, not, slice_get, take};
ghost use Rattle.std.specs.List.{AllByRecursion as Each};
ghost use Rattle.mz_holds.specs.HoldBook.{at_time, hold_of};
ghost use Rattle.mz_holds.specs.Kept.{IsRising};

use mz_rules::Hold;
use mz_time::Time;

// Where the hold of this number stands.
fn place_of(live: &[Hold], number: u64) -> usize
    requires rising { IsRising live.now }
    requires live { IsSome (hold_of number live.now) }
    ensures place { result < length live.now }
    ensures before { Each (λ hold. hold.number < number) (take result live.now) }
    ensures hold { slice_get live.now result ≡ hold_of number live.now }
{
    live.partition_point(|hold| hold.number < number)
}

/// The hold of this number. O(log n).
pub fn found(live: &[Hold], number: u64) -> Hold
    requires rising { IsRising live.now }
    requires live { IsSome (hold_of number live.now) }
    ensures { hold_of number live.now ≡ Some result }
{
    live[place_of(live, number)]
}

/// Moves the hold of this number to another time. O(log n).
pub fn move_to(live: &mut Vec<Hold>, number: u64, t: Time)
    requires rising { IsRising live.old.items }
    requires live { IsSome (hold_of number live.old.items) }
    ensures { live.new.items ≡ map (at_time number t) live.old.items }
{
    let place = place_of(live, number);
    live[place].time = t;
}

/// Lets the hold of this number go. O(log n), and a shift of those behind it.
pub fn let_go(live: &mut Vec<Hold>, number: u64)
    requires rising { IsRising live.old.items }
    requires live { IsSome (hold_of number live.old.items) }
    ensures { live.new.items ≡ filter (λ hold. not (hold.number == number)) live.old.items }
{
    let place = place_of(live, number);
    live.remove(place);
}
