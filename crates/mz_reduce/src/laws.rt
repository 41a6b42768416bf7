//! What holds of groups and of distinct rows: each law is the contract of a function that does
//! nothing.
ghost use Rattle.std.specs.Prelude.{◌≡◌, ◌+◌, ◌*◌, ◌≤◌, ◌^◌, ℕ, List};
ghost use Rattle.std.specs.List.{AllByRecursion as Each};
ghost use Rattle.mz_bag.specs.Weighted.{Weighted};
ghost use Rattle.mz_plan.specs.Operators.{grouped};
ghost use Rattle.mz_plan.specs.Small.{most_rows, most_tables, SumsInts};
ghost use Rattle.mz_plan.specs.declared.aggregate.Aggregate.{Aggregate};
ghost use Rattle.mz_reduce.specs.Grouping.{grouped_ints};
ghost use Rattle.mz_reduce.specs.Laws.{group_load, kept_load};

/// Where each SUM takes INTs alone, the groups are those that a plan means. Takes no memory.
pub fn groups_of_ints()
    ensures { (places : List ℕ) (aggregates : List Aggregate) (ws : Weighted)
        → Each (λ w. Each (SumsInts w.0) aggregates) ws
        → grouped_ints places aggregates ws ≡ grouped places aggregates ws }
{}

/// Over no more tables than a query may read, each with no more rows than a table may have, the
/// loads of groups and of distinct rows are within the bound: of what is there, and of a change that
/// weighs at most what was there and what is. Takes no memory.
pub fn loads_of_few_tables()
    ensures groups { (tables left change : ℕ) → tables ≤ most_tables → left ≤ most_rows ^ tables
        → change ≤ 2 * most_rows ^ tables → group_load left 0 change 0 ≤ 2 ^ 100 }
    ensures distinct { (tables left change : ℕ) → tables ≤ most_tables → left ≤ most_rows ^ tables
        → change ≤ 2 * most_rows ^ tables → kept_load left 0 change 0 ≤ 2 ^ 100 }
{}
