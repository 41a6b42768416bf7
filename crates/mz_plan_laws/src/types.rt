//! The types of the rows that plans give.
ghost use Rattle.std.specs.Prelude.{◌≡◌, ◌↔◌, ℕ, ℤ, List, length, map};
ghost use Rattle.std.specs.List.{AllByRecursion as Each};
ghost use Rattle.mz_value.specs.declared.datum.Datum.{Datum};
ghost use Rattle.mz_bag.specs.Weighted.{Weighted};
ghost use Rattle.mz_statement.specs.Value.{IsLiteral};
ghost use Rattle.mz_statement.specs.declared.column.ColumnType.{ColumnType};
ghost use Rattle.mz_plan.specs.Bound.{IsBoundedOver};
ghost use Rattle.mz_plan.specs.Leaves.{AllLeaves};
ghost use Rattle.mz_plan.specs.Meaning.{Leaves, index_rows, meaning};
ghost use Rattle.mz_plan.specs.PlanTypes.{AreFormedOver, IsFormedOver, index_types, item_types, types_over};
ghost use Rattle.mz_plan.specs.RowTypes.{AreTyped, HaveTypes, IsRowOf};
ghost use Rattle.mz_plan.specs.Small.{IsSmall};
ghost use Rattle.mz_plan.specs.SmallTyped.{IsSmallOver};
ghost use Rattle.mz_plan.specs.Types.{plan_types, type_of};
ghost use Rattle.mz_plan.specs.WellFormed.{IsWellFormed};
ghost use Rattle.mz_plan.specs.declared.item.Item.{Item};
ghost use Rattle.mz_plan.specs.declared.plan.Plan.{Plan};

/// Where the rows of each leaf that a plan names have the types that the leaf is said to have, and the plan is
/// well formed over these, its rows have its types. So have the rows of the indexes over typed tables, where
/// the plan of each is well formed over the older ones. Rows of the same types have one length. Takes no memory.
pub fn rows_have_types()
    ensures plans { (tables indexes : ℕ → List ColumnType) (some others : Leaves) (plan : Plan)
        → AllLeaves (λ item. HaveTypes (tables item) (some item))
        (λ item. HaveTypes (indexes item) (others item)) plan
        → IsFormedOver tables indexes plan
        → HaveTypes (types_over tables indexes plan) (meaning some others plan) }
    ensures indexes { (tables : ℕ → List ColumnType) (some : Leaves) → AreTyped tables some
        → (plans : List (ℕ × Plan)) → AreFormedOver tables plans
        → AreTyped (index_types tables plans) (index_rows some plans) }
    ensures lengths { (types : List ColumnType) (ws : Weighted) → HaveTypes types ws
        → Each (λ w. length w.0 ≡ length types) ws }
{}

/// A plan that is well formed over the items of a scope is so over the types of these items, and has the types of
/// its columns. Takes no memory.
pub fn types_of_the_scope()
    ensures types { (items : List Item) (plan : Plan)
        → plan_types items plan ≡ types_over (item_types items) (item_types items) plan }
    ensures formed { (items : List Item) (plan : Plan) → IsWellFormed items plan
        → IsFormedOver (item_types items) (item_types items) plan }
{}

/// The types that a row has are those of its values; and a row of literals has the types of its values.
/// Takes no memory.
pub fn rows_of_literals()
    ensures types { (types : List ColumnType) (row : List Datum) → IsRowOf types row
        → map type_of row ≡ types }
    ensures literals { (types : List ColumnType) (row : List Datum) → Each IsLiteral row
        → map type_of row ≡ types → IsRowOf types row }
{}

/// A well-formed plan that reads no more tables than a query may, each with no more rows than a table may have and
/// all of the table's types, sums INTs alone and is bounded. Takes no memory.
pub fn small_typed_plans_are_bounded()
    ensures small { (types : ℕ → List ColumnType) (tables : Leaves) (plans : List (ℕ × Plan))
        (plan : Plan) → IsSmallOver types tables plans plan → IsSmall tables plans plan }
    ensures bounded { (types : ℕ → List ColumnType) (tables : Leaves) (plans : List (ℕ × Plan))
        (plan : Plan) → IsSmallOver types tables plans plan → IsBoundedOver tables plans plan }
{}
