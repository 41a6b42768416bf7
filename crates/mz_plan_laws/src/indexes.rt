//! What indexes give: the rows of their plans.
ghost use Rattle.std.specs.Prelude.{◌≡◌, ◌<◌, ◌≤◌, ℕ, Contains, List, [], ◌++◌};
ghost use Rattle.std.specs.List.{AllByRecursion as Each};
ghost use Rattle.mz_plan.specs.Indexes.{AreNewestFirst, expanded, index_plans};
ghost use Rattle.mz_plan.specs.Leaves.{AllBelow};
ghost use Rattle.mz_plan.specs.Meaning.{Leaves, index_rows, meaning};
ghost use Rattle.mz_plan.specs.declared.plan.Plan.{Plan};

/// Where the plans of the indexes stand with the newest first, each index has the rows of its plan over all of
/// them. Indexes with numbers at or above a limit change neither the rows of an index below it nor those of a plan
/// that names only numbers below it. Takes no memory.
pub fn indexes_are_their_plans()
    ensures rows { (tables : Leaves) (plans : List (ℕ × Plan)) → AreNewestFirst plans
        → (index : ℕ × Plan) → Contains plans index
        → index_rows tables plans index.0 ≡ meaning tables (index_rows tables plans) index.1 }
    ensures newer { (tables : Leaves) (limit : ℕ) (newer older : List (ℕ × Plan))
        → Each (λ index. limit ≤ index.0) newer → (item : ℕ) → item < limit
        → index_rows tables (newer ++ older) item ≡ index_rows tables older item }
    ensures plans { (tables : Leaves) (limit : ℕ) (newer older : List (ℕ × Plan))
        → Each (λ index. limit ≤ index.0) newer → (plan : Plan) → AllBelow limit plan
        → meaning tables (index_rows tables (newer ++ older)) plan
        ≡ meaning tables (index_rows tables older) plan }
{}

/// Indexes change no rows: a plan over indexes gives what it gives with the plan of each index in its place, and
/// in that plan those of the indexes that it names, until it reads tables alone. So it is with plans for any
/// numbers: each stands for its rows. Takes no memory.
pub fn indexes_change_no_rows()
    ensures tables { (tables : Leaves) (plans : List (ℕ × Plan)) (plan : Plan)
        → meaning tables (λ item. []) (expanded (index_plans plans) plan)
        ≡ meaning tables (index_rows tables plans) plan }
    ensures plans { (of_index : ℕ → Plan) (tables indexes : Leaves) (plan : Plan)
        → meaning tables indexes (expanded of_index plan)
        ≡ meaning tables (λ item. meaning tables indexes (of_index item)) plan }
{}
