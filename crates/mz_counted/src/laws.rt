//! The laws of counted times, each as what a function with an empty body ensures.
ghost use Rattle.std.specs.Prelude.{◌≡◌, ◌+◌, ◌-◌, ◌<◌, ◌==◌, ◌++◌, ◌∷◌, [], ℕ, List, length, if◌then◌else◌};
ghost use Rattle.mz_time.specs.declared.frontier.Frontier.TheVariants.{At};
ghost use Rattle.mz_time.specs.Frontier.{meet};
ghost use Rattle.mz_counted.specs.Counted.{count, in_order, inserted, least_of, removed, IsFalling};

/// A time that is put in is there once more, and any other as often as before. So the times are those that were put in, in order, and
/// their order of coming is forgotten. Takes no memory.
pub fn times_come()
    ensures counts { (t u : ℕ) (ts : List ℕ)
        → count u (inserted t ts) ≡ count u ts + (if t == u then 1 else 0) }
    ensures more { (t : ℕ) (ts : List ℕ) → length (inserted t ts) ≡ length ts + 1 }
    ensures lesser { (t : ℕ) (ts : List ℕ) → least_of (inserted t ts) ≡ meet (At t) (least_of ts) }
    ensures any_order { (t u : ℕ) (ts : List ℕ)
        → inserted t (inserted u ts) ≡ inserted u (inserted t ts) }
    ensures last { (t : ℕ) (ts : List ℕ) → in_order (ts ++ t ∷ []) ≡ inserted t (in_order ts) }
    ensures falling { (ts : List ℕ) → IsFalling (in_order ts) }
{}

/// A time that is taken out is there once less, and any other as often as before. What came in and goes leaves no trace. Takes no memory.
pub fn times_go()
    ensures counts { (t u : ℕ) (ts : List ℕ) → count u (removed t ts) ≡ count u ts - (if t == u then 1 else 0) }
    ensures back { (t : ℕ) (ts : List ℕ) → removed t (inserted t ts) ≡ ts }
    ensures fewer { (t : ℕ) (ts : List ℕ) → 0 < count t ts → length (removed t ts) + 1 ≡ length ts }
{}

/// Put in order, times are as many, as often there, and have the same least. Takes no memory.
pub fn order_keeps()
    ensures counts { (t : ℕ) (ts : List ℕ) → count t (in_order ts) ≡ count t ts }
    ensures total { (ts : List ℕ) → length (in_order ts) ≡ length ts }
    ensures least { (ts : List ℕ) → least_of (in_order ts) ≡ least_of ts }
{}
