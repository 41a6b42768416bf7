//! The laws of frontiers, each as what a function with an empty body ensures.
ghost use Rattle.std.specs.Prelude.{◌≡◌, ◌⊎◌, ◌↔◌, ◌++◌, ℕ, List, All, IsTrue};
ghost use Rattle.std.specs.Ordering.{is_le};
ghost use Rattle.mz_time.specs.declared.frontier.Frontier.TheVariants.{At, Done};
ghost use Rattle.mz_time.specs.Frontier.{Le, Passes, join, least, meet, step_back};

use super::frontier::Frontier;

/// Frontiers have a total order, in which `Done` is last. It is the order that `Ord` compares by.
pub fn total_order()
    ensures reflexive { (f : Frontier) → Le f f }
    ensures transitive { (f g h : Frontier) → Le f g → Le g h → Le f h }
    ensures antisymmetric { (f g : Frontier) → Le f g → Le g f → f ≡ g }
    ensures total { (f g : Frontier) → Le f g ⊎ Le g f }
    ensures last { (f : Frontier) → Le f Done }
    ensures derived { (f g : Frontier) → Le f g ↔ IsTrue (is_le (⟦<Frontier as Ord>⟧.cmp f g)) }
{}

/// The lesser of two frontiers is the greatest that is at or before both. `Done` changes nothing.
pub fn lesser()
    ensures commutes { (f g : Frontier) → meet f g ≡ meet g f }
    ensures associates { (f g h : Frontier) → meet (meet f g) h ≡ meet f (meet g h) }
    ensures idempotent { (f : Frontier) → meet f f ≡ f }
    ensures neutral { (f : Frontier) → meet f Done ≡ f }
    ensures absorbs { (f g : Frontier) → meet f (join f g) ≡ f }
    ensures below_both { (f g h : Frontier) → Le h (meet f g) ↔ (Le h f × Le h g) }
{}

/// The greater of two frontiers is the least that is at or after both. Nothing is after `Done`.
pub fn greater()
    ensures commutes { (f g : Frontier) → join f g ≡ join g f }
    ensures associates { (f g h : Frontier) → join (join f g) h ≡ join f (join g h) }
    ensures idempotent { (f : Frontier) → join f f ≡ f }
    ensures last { (f : Frontier) → join f Done ≡ Done }
    ensures absorbs { (f g : Frontier) → join f (meet f g) ≡ f }
    ensures above_both { (f g h : Frontier) → Le (join f g) h ↔ (Le f h × Le g h) }
{}

/// What is at or before the least of a list is at or before each of it, and the least of two lists is the lesser of theirs.
pub fn least_of_a_list()
    ensures below_each { (h : Frontier) (fs : List Frontier) → Le h (least fs) ↔ All (Le h) fs }
    ensures of_two { (fs gs : List Frontier) → least (fs ++ gs) ≡ meet (least fs) (least gs) }
{}

/// A frontier passes a time exactly where it isn't at or before it, and then each later frontier passes it too.
pub fn passing()
    ensures not_at_or_before { (f : Frontier) (t : ℕ) → Passes f t ↔ (Le f (At t) → ⊥) }
    ensures stays { (f g : Frontier) (t : ℕ) → Passes f t → Le f g → Passes g t }
{}

/// A step back gives no later frontier, and keeps the order.
pub fn steps_back()
    ensures no_later { (f : Frontier) (n : ℕ) → Le (step_back f n) f }
    ensures keeps_order { (f g : Frontier) (n : ℕ) → Le f g → Le (step_back f n) (step_back g n) }
{}
