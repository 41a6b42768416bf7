//! Where a time stands among times that fall, and what becomes of them as it comes and goes.
ghost use Rattle.std.specs.Prelude.{◌≡◌, ◌+◌, ◌<◌, ◌≤◌, length, take, drop, vec_len, vec_capacity};
ghost use Rattle.std.specs.List.{AllByRecursion as Each};
ghost use Rattle.mz_counted.specs.Counted.{count, inserted, removed, IsFalling};

use mz_time::Time;

/// How many of the times are after this one: they stand first. O(log n).
pub fn after(times: &[Time], t: Time) -> usize
    requires { IsFalling times.now }
    ensures place { result ≤ length times.now }
    ensures first { Each (λ u. t < u) (take result times.now) }
    ensures rest { Each (λ u. u ≤ t) (drop result times.now) }
{
    times.partition_point(|time| t.number() < time.number())
}

/// How many of the times are not before this one: they stand first. O(log n).
pub fn from(times: &[Time], t: Time) -> usize
    requires { IsFalling times.now }
    ensures place { result ≤ length times.now }
    ensures first { Each (λ u. t ≤ u) (take result times.now) }
    ensures rest { Each (λ u. u < t) (drop result times.now) }
{
    times.partition_point(|time| t.number() <= time.number())
}

/// How often the time is there. O(log n).
pub fn how_often(times: &[Time], t: Time) -> usize
    requires { IsFalling times.now }
    ensures { result ≡ count t times.now }
{
    from(times, t) - after(times, t)
}

/// Puts a time in, where there is room. Takes no memory. O(log n), and a shift of what stands behind it.
pub fn put(times: &mut Vec<Time>, t: Time)
    requires falling { IsFalling times.old.items }
    requires room { vec_len times.old < vec_capacity times.old }
    ensures times { times.new.items ≡ inserted t times.old.items }
    ensures falling { IsFalling times.new.items }
    ensures len { vec_len times.new ≡ vec_len times.old + 1 }
    ensures room { vec_capacity times.new ≡ vec_capacity times.old }
{
    let place = after(times, t);
    times.insert(place, t).unwrap();
}

/// Takes a time out. Takes no memory. O(log n), and a shift of what stands behind it.
pub fn take_out(times: &mut Vec<Time>, t: Time)
    requires falling { IsFalling times.old.items }
    requires there { 0 < count t times.old.items }
    ensures times { times.new.items ≡ removed t times.old.items }
    ensures falling { IsFalling times.new.items }
    ensures len { vec_len times.new + 1 ≡ vec_len times.old }
    ensures room { vec_capacity times.new ≡ vec_capacity times.old }
{
    let place = after(times, t);
    times.remove(place);
}
