//! Peeks in order of their numbers.
ghost use Rattle.std.specs.Prelude.{◌≡◌, filter, find, not};
ghost use Rattle.mz_books.specs.Holds.{is_of_call, is_peek};
ghost use Rattle.mz_peeks.specs.Kept.{IsPlaceOf, IsRising};

use mz_plan::PendingPeek;

// Where the peek of this number stands, if it pends.
fn place_of(pending: &[PendingPeek], peek: u64) -> Option<usize>
    requires { IsRising pending.now }
    ensures { IsPlaceOf peek pending.now result }
{
    pending
        .binary_search_by_key(&peek, |waiting| waiting.peek)
        .ok()
}

/// The peek of this number, if it pends. O(log n).
pub fn of_number(pending: &[PendingPeek], peek: u64) -> Option<PendingPeek>
    requires { IsRising pending.now }
    ensures { result ≡ find (is_peek peek) pending.now }
{
    let place = place_of(pending, peek)?;
    Some(pending[place])
}

/// Lets the peek of this number go, if it pends. O(log n), and a shift of those behind it.
pub fn let_go(pending: &mut Vec<PendingPeek>, peek: u64) -> Option<PendingPeek>
    requires { IsRising pending.old.items }
    ensures told { result ≡ find (is_peek peek) pending.old.items }
    ensures left { pending.new.items
        ≡ filter (λ waiting. not (is_peek peek waiting)) pending.old.items }
{
    let place = place_of(pending, peek)?;
    Some(pending.remove(place))
}

// Whether a peek answers this call.
fn answers(waiting: &PendingPeek, session: u64, call: u64) -> bool
    ensures { result ≡ is_of_call session call waiting.now }
{
    waiting.session == session && waiting.call == call
}

/// The peek of this call, if it pends. O(n).
pub fn of_call(pending: &[PendingPeek], session: u64, call: u64) -> Option<PendingPeek>
    ensures { result ≡ find (is_of_call session call) pending.now }
{
    pending
        .iter()
        .find(|waiting| answers(waiting, session, call))
        .copied()
}

/// Lets the peek of this call go, if it pends. O(n).
pub fn let_go_call(pending: &mut Vec<PendingPeek>, session: u64, call: u64)
    ensures { pending.new.items
        ≡ filter (λ waiting. not (is_of_call session call waiting)) pending.old.items }
{
    pending.retain(|waiting| !answers(waiting, session, call));
}
