//! The laws of oracles and rounds, each as what a function with an empty body ensures.
ghost use Rattle.std.specs.Prelude.{◌≡◌, ◌↔◌, ◌+◌, ◌<◌, ◌≤◌, ℕ, List, [], ◌∷◌, ◌++◌, length, None, Ok, IsErr};
ghost use Rattle.std.specs.List.Sorted.{IsStrictlyIncreasing};
ghost use Rattle.mz_oracle.specs.Oracle.{given, greatest_given, next_time, times_given};
ghost use Rattle.mz_oracle.specs.Rounds.{RoundsState, all_items, round_items, with_item, with_round, without_round, without_place, without_queued};

/// A time that is given is after the last one and not before the clock, and is the least such. None is given exactly where
/// each such time is too great. Takes no memory.
pub fn times_rise()
    ensures after { (last now time : ℕ) → given last now ≡ Ok time → last < time }
    ensures not_before { (last now time : ℕ) → given last now ≡ Ok time → now ≤ time }
    ensures least { (last now time other : ℕ) → given last now ≡ Ok time
        → last < other → now ≤ other → time ≤ other }
    ensures within { (last now time : ℕ) → given last now ≡ Ok time → time ≤ greatest_given }
    ensures spent { (last now : ℕ) → IsErr (given last now) ↔ (greatest_given < next_time last now) }
{}

/// Whatever the clock shows, each time that is given is after the one before it, and so after all of them. Takes no memory.
#[tactic(auto, using(crate::proofs::TimeLemmas::given_ascend))]
pub fn given_times_ascend()
    ensures { (last : ℕ) (moments : List ℕ)
        → IsStrictlyIncreasing (last ∷ times_given last moments) }
{}

/// No item is lost, none is doubled, and their order stays: what is queued stands behind all items, a round that begins
/// leaves them as they are, and what is handed out stood before what is left, behind it, or at its place. Takes no memory.
#[tactic(auto, using(crate::proofs::RoundLemmas::withdrawn_between))]
pub fn items_stay<T>()
    ensures queued { (rounds : RoundsState T) (item : T)
        → all_items (with_item rounds item) ≡ all_items rounds ++ item ∷ [] }
    ensures begun { (rounds : RoundsState T) → rounds.in_round ≡ None
        → all_items (with_round rounds) ≡ all_items rounds }
    ensures finished { (rounds : RoundsState T)
        → all_items rounds ≡ round_items rounds ++ all_items (without_round rounds) }
    ensures emptied { (rounds : RoundsState T)
        → all_items rounds ≡ all_items (without_queued rounds) ++ rounds.queued }
    ensures withdrawn { (rounds : RoundsState T) (before after : List T) (item : T)
        → rounds.queued ≡ before ++ item ∷ after
        → all_items (without_place rounds (length before)) ≡ round_items rounds ++ (before ++ after) }
{}
