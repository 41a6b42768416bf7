//! What holds of all operators: each law is the contract of a function that does nothing.
ghost use Rattle.std.specs.Prelude.{◌+◌, ◌*◌, ◌≤◌, ◌^◌, ◌++◌, ℕ, List};
ghost use Rattle.mz_bag.specs.Mass.{mass};
ghost use Rattle.mz_bag.specs.Weighted.{Weighted};
ghost use Rattle.mz_plan.specs.Small.{most_rows, most_tables};
ghost use Rattle.mz_updates.specs.declared.update.Update.{Update};
ghost use Rattle.mz_updates.specs.Consolidated.{IsConsolidated};
ghost use Rattle.mz_updates.specs.Contents.{changes, contents, weights, IsFrom};
ghost use Rattle.mz_ops.specs.Change.{IsLoad};
ghost use Rattle.mz_ops.specs.Laws.{product_load, sum_load};
ghost use Rattle.mz_ops.specs.Step.{IsBearableStep, IsStep, StandsBefore};

use crate::Changing;

/// A step is within the bound where the operator stands for some rows whose masses, each with that
/// of the side's updates, and
/// those of the updates make a load within it. Takes no memory.
pub fn steps_of_light_lists<C: Changing>()
    ensures { (op : C) (upper next : ℕ) (ls rs : Weighted) (left right : List Update)
        → C.stands op ls rs → IsFrom upper left → IsFrom upper right
        → C.load op (mass ls + mass (weights left)) (mass rs + mass (weights right))
        (mass (weights left)) (mass (weights right)) ≤ 2 ^ 100
        → IsBearableStep (C.stands op) (C.load op) upper next left right }
{}

/// A consolidated output of a step weighs at each time but 0 no more than what is made of the sides before it and at
/// it: of updates that the operator stood for, with those of the step behind them. Takes no memory.
pub fn outputs_weigh_little<C: Changing>()
    ensures { (op new : C) (upper next t : ℕ) (us vs left right out : List Update)
        → StandsBefore upper (C.stands op) us vs
        → IsStep (C.meaning op) (StandsBefore upper (C.stands op)) (StandsBefore next (C.stands new))
        left right out
        → IsConsolidated out → upper ≤ t + 1
        → mass (changes (t + 1) out)
        ≤ mass (C.meaning op (contents t (us ++ left)) (contents t (vs ++ right)))
        + mass (C.meaning op (contents (t + 1) (us ++ left)) (contents (t + 1) (vs ++ right))) }
{}

/// Over no more tables than a query may read, each with no more rows than a table may have, the
/// load of an operator is
/// within the bound: of both sides, and of changes that weigh at most what was there and what is.
/// Takes no memory.
pub fn loads_of_few_tables()
    ensures joins { (first second left right left_change right_change : ℕ)
        → first + second ≤ most_tables → left ≤ most_rows ^ first → right ≤ most_rows ^ second
        → left_change ≤ 2 * most_rows ^ first → right_change ≤ 2 * most_rows ^ second
        → product_load left right left_change right_change ≤ 2 ^ 100 }
    ensures others { (first second left right left_change right_change : ℕ)
        → first + second ≤ most_tables
        → left_change ≤ 2 * most_rows ^ first → right_change ≤ 2 * most_rows ^ second
        → sum_load left right left_change right_change ≤ 2 ^ 100 }
    ensures loads { IsLoad product_load × IsLoad sum_load }
{}
