//! What holds of plans as nodes: each law is the contract of a function that does nothing.
ghost use Rattle.std.specs.Prelude.{◌≡◌, ◌≤◌, ◌+◌, ◌++◌, [], ⊤, ℕ, length, List};
ghost use Rattle.mz_arrange.specs.Arranged.{rows_at};
ghost use Rattle.mz_bag.specs.Mass.{mass, IsLight};
ghost use Rattle.mz_bag.specs.Weighted.{bag_of, Weighted};
ghost use Rattle.mz_plan.specs.Leaves.{leaves_of};
ghost use Rattle.mz_plan.specs.Meaning.{Leaves, meaning};
ghost use Rattle.mz_plan.specs.Small.{most_rows, most_tables, tables_read, IsSummingInts};
ghost use Rattle.mz_plan.specs.declared.plan.Plan.{Plan};
ghost use Rattle.mz_plan_laws.specs.Alike.{Alike, AreAlike};
ghost use Rattle.mz_updates.specs.Contents.{contents, stamped, weights, IsBefore, IsFrom};
ghost use Rattle.mz_updates.specs.declared.update.Update.{Update};
ghost use Rattle.mz_dataflow.specs.Built.{bears_plan, meaning_of_ints, AreFew, Bears, IsBuilt, Puts};
ghost use Rattle.mz_dataflow.specs.Flow.{contents_of, weights_of, LeafUpdates};
ghost use Rattle.mz_dataflow.specs.Nodes.{stand_nodes};
ghost use Rattle.mz_dataflow.specs.Run.{grown, CanRun, IsChangeOf, IsRunTo};
ghost use Rattle.mz_dataflow.specs.Stands.{offers_of, CanRunTo, Stands};
ghost use Rattle.mz_dataflow.specs.declared.dataflow.Dataflow.{Dataflow};
ghost use Rattle.mz_dataflow.specs.declared.node.Node.{Node};

/// Where each SUM takes INTs alone, what nodes put is what the plan means. Takes no memory.
pub fn plans_of_ints()
    ensures { (leaves : Leaves) (plan : Plan) → IsSummingInts leaves leaves (λ item. ⊤) plan
        → meaning_of_ints leaves plan ≡ meaning leaves leaves plan }
{}

/// Nodes that were built of a plan put its rows, and stand for leaves without a row; their loads are within the
/// bound where the plan's are. Takes no memory.
pub fn built_nodes()
    ensures puts { (plan : Plan) (nodes : List Node) → IsBuilt plan [] nodes → Puts plan nodes }
    ensures bears { (plan : Plan) (nodes : List Node) → IsBuilt plan [] nodes → Bears plan nodes }
    ensures stand { (plan : Plan) (nodes : List Node) → IsBuilt plan [] nodes
        → stand_nodes (λ item. []) nodes [] }
{}

/// A run of nodes that put a plan's rows gives the change of these rows, however the leaves count that it stands
/// for, and they go on to put that plan's, with loads that are within the bound where the plan's are. Takes no memory.
pub fn runs_change_plans()
    ensures change { (plan : Plan) (changes : Leaves) (old new : List Node) (rows : Weighted)
        → Puts plan old → IsRunTo changes old new rows
        → IsChangeOf (λ leaves. meaning_of_ints leaves plan)
        (λ leaves. stand_nodes leaves old []) (λ leaves. stand_nodes leaves new []) changes rows }
    ensures puts { (plan : Plan) (changes : Leaves) (old new : List Node) (rows : Weighted)
        → Puts plan old → IsRunTo changes old new rows → Puts plan new }
    ensures bears { (plan : Plan) (changes : Leaves) (old new : List Node) (rows : Weighted)
        → Bears plan old → IsRunTo changes old new rows → Bears plan new }
{}

/// A run is within the bound where the plan is: over some rows of the leaves for which the nodes stand, and over some
/// that count as these do with the changes. Takes no memory.
pub fn bounded_runs()
    ensures { (plan : Plan) (changes before after : Leaves) (nodes : List Node) → Bears plan nodes
        → stand_nodes before nodes [] → AreAlike after (grown before changes)
        → bears_plan before after plan → CanRun changes nodes }
{}

/// A plan that reads no more tables than a query may, none with more rows than a table may have, before and after, has
/// loads within the bound. Takes no memory.
pub fn loads_of_few_tables()
    ensures { (reads : ℕ → ℕ) (before after : Leaves) (plan : Plan)
        → tables_read reads plan ≤ most_tables → AreFew reads before plan → AreFew reads after plan
        → bears_plan before after plan }
{}

/// What a dataflow's output has at a time is what its plan means over the updates that it stands for, where each SUM
/// takes INTs alone then. Takes no memory.
pub fn outputs_are_plans()
    ensures { (plan : Plan) (flow : Dataflow) (us : LeafUpdates) (t : ℕ)
        → Stands plan flow us → flow.output.since ≤ t
        → IsSummingInts (contents_of t us) (contents_of t us) (λ item. ⊤) plan
        → rows_at flow.output t ≡ bag_of (meaning (contents_of t us) (contents_of t us) plan) }
{}

/// A run is within the bound where the plan names no more leaves than a query may read tables, and of each leaf all that
/// was ever offered weighs no more than the rows of a table may. Takes no memory.
pub fn runs_of_few_updates()
    ensures { (plan : Plan) (flow : Dataflow) (us : LeafUpdates) (next : ℕ)
        → Stands plan flow us → flow.output.upper ≤ next
        → ((item : ℕ) → IsFrom flow.output.upper (offers_of flow item))
        → ((item : ℕ) → IsBefore next (offers_of flow item))
        → length (leaves_of plan) ≤ most_tables
        → ((item : ℕ) → mass (weights (us item ++ offers_of flow item)) ≤ most_rows)
        → CanRunTo flow next }
{}

/// And so it is where the plan reads no more tables than a query may, and before each time from the upper on the leaves
/// have no more rows than so many tables may: in some lists that count as their updates do. Takes no memory.
pub fn runs_over_few_tables()
    ensures { (plan : Plan) (flow : Dataflow) (us : LeafUpdates) (next : ℕ) (reads : ℕ → ℕ)
        (rows : ℕ → Leaves)
        → Stands plan flow us → flow.output.upper ≤ next
        → ((item : ℕ) → IsFrom flow.output.upper (offers_of flow item))
        → ((item : ℕ) → IsBefore next (offers_of flow item))
        → AreAlike (rows flow.output.upper) (weights_of us)
        → ((t item : ℕ) → flow.output.upper ≤ t
        → Alike (rows (t + 1) item) (contents t (us item ++ offers_of flow item)))
        → ((t item : ℕ) → flow.output.upper ≤ t → IsLight (rows t item))
        → tables_read reads plan ≤ most_tables
        → ((t : ℕ) → flow.output.upper ≤ t → AreFew reads (rows t) plan)
        → CanRunTo flow next }
{}

/// A list that ends before a time, and is given there what it lacks of some rows, contains these from then on, and what
/// changes later; and so does a list that begins there with the rows. Takes no memory.
pub fn starts()
    ensures behind { (us more : List Update) (lack ws : Weighted) (upper start t : ℕ)
        → IsBefore upper us → upper ≤ start → start ≤ t → Alike (weights us ++ lack) ws
        → Alike (contents t ((us ++ stamped start lack) ++ more)) (ws ++ contents t more) }
    ensures new { (more : List Update) (ws : Weighted) (start t : ℕ) → start ≤ t
        → Alike (contents t (stamped start ws ++ more)) (ws ++ contents t more) }
{}
