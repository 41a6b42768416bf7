//! What the leaves of plans tell of what they give.
ghost use Rattle.std.specs.Prelude.{◌≡◌, ◌<◌, ◌↔◌, ℕ, List, map};
ghost use Rattle.std.specs.List.{AllByRecursion as Each};
ghost use Rattle.mz_statement.specs.declared.column.ColumnType.{ColumnType};
ghost use Rattle.mz_plan.specs.Leaves.{AllBelow, AllLeaves, leaves_of, renamed};
ghost use Rattle.mz_plan.specs.Meaning.{Leaves, meaning};
ghost use Rattle.mz_plan.specs.PlanTypes.{IsFormedOver, types_over};
ghost use Rattle.mz_plan.specs.declared.plan.Plan.{Plan};
ghost use Rattle.mz_plan_laws.specs.Alike.{Alike};

/// Only the leaves that a plan names count: where each of these counts alike on both sides, so does what the plan
/// gives, and where each has the same list, the plan gives the same. The leaves named are those in the plan's
/// list of leaves. Takes no memory.
pub fn only_named_leaves_count()
    ensures alike { (tables more indexes older : Leaves) (plan : Plan)
        → AllLeaves (λ item. Alike (tables item) (more item))
        (λ item. Alike (indexes item) (older item)) plan
        → Alike (meaning tables indexes plan) (meaning more older plan) }
    ensures same { (tables more indexes older : Leaves) (plan : Plan)
        → AllLeaves (λ item. tables item ≡ more item) (λ item. indexes item ≡ older item) plan
        → meaning tables indexes plan ≡ meaning more older plan }
    ensures listed { (tables more indexes older : Leaves) (plan : Plan)
        → Each (λ item. Alike (tables item) (more item)) (leaves_of plan)
        → Each (λ item. Alike (indexes item) (older item)) (leaves_of plan)
        → Alike (meaning tables indexes plan) (meaning more older plan) }
    ensures below { (limit : ℕ) (plan : Plan)
        → AllBelow limit plan ↔ Each (λ item. item < limit) (leaves_of plan) }
{}

/// A plan whose leaves are renamed gives what the plan gives over the leaves of these names, and has the types that
/// it has there; it is well formed where the plan is so there. Its leaves are the plan's, renamed. Takes no memory.
pub fn renamed_plans()
    ensures meaning { (name : ℕ → ℕ) (tables indexes : Leaves) (plan : Plan)
        → meaning tables indexes (renamed name plan)
        ≡ meaning (λ item. tables (name item)) (λ item. indexes (name item)) plan }
    ensures leaves { (name : ℕ → ℕ) (plan : Plan)
        → leaves_of (renamed name plan) ≡ map name (leaves_of plan) }
    ensures types { (name : ℕ → ℕ) (tables indexes : ℕ → List ColumnType) (plan : Plan)
        → types_over tables indexes (renamed name plan)
        ≡ types_over (λ item. tables (name item)) (λ item. indexes (name item)) plan }
    ensures formed { (name : ℕ → ℕ) (tables indexes : ℕ → List ColumnType) (plan : Plan)
        → IsFormedOver (λ item. tables (name item)) (λ item. indexes (name item)) plan
        → IsFormedOver tables indexes (renamed name plan) }
{}
