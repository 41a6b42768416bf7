//! What may be evaluated in a well state, and what queries are told.
ghost use Rattle.std.specs.Prelude.{◌≡◌, ◌≤◌, ◌++◌, Contains, IfOk, List, Option, ℕ, true, false};
ghost use Rattle.std.specs.List.{AllByRecursion as Each};
ghost use Rattle.mz_statement.specs.declared.query.Select.{Select};
ghost use Rattle.mz_statement.specs.declared.statement.Statement.{Statement};
ghost use Rattle.mz_statement.specs.declared.statement.Statement.TheVariants as statement;
ghost use Rattle.mz_plan.specs.Bound.{IsBoundedIn, IsBoundedOver};
ghost use Rattle.mz_plan.specs.Masses.{AreWithin};
ghost use Rattle.mz_plan.specs.Meaning.{Leaves, index_rows, meaning, meaning_of, table_rows};
ghost use Rattle.mz_plan.specs.PlanTypes.{IsFormedOver, index_types};
ghost use Rattle.mz_plan.specs.RowTypes.{AreTyped};
ghost use Rattle.mz_plan.specs.Signs.{IsNotNegative};
ghost use Rattle.mz_plan.specs.Small.{index_reads, most_rows, most_tables, tables_read};
ghost use Rattle.mz_plan.specs.Items.{is_index};
ghost use Rattle.mz_plan.specs.declared.item.Item.{Item};
ghost use Rattle.mz_plan.specs.declared.plan.Plan.{Plan};
ghost use Rattle.mz_plan.specs.declared.plan.Plan.TheVariants as node;
ghost use Rattle.mz_plan.specs.declared.tables.TableBags.{TableBags};
ghost use Rattle.mz_resolution.specs.Resolution.{query_in, resolution};
ghost use Rattle.mz_resolve_laws.specs.TypedOver.{AsksBounded, AsksOver, LeafTypes};
ghost use Rattle.mz_resolve_laws.specs.WellFormed.{AsksWell};
ghost use Rattle.mz_log.specs.CarriedOut.{rows_of, seq};
ghost use Rattle.mz_log.specs.Sequential.{Bags, Sequential};
ghost use Rattle.mz_state_laws.specs.Evaluable.{AreOf, AsksBoundedIn, AsksEvaluable, HasRowsOf, IsEvaluable, TellsRows};
ghost use Rattle.mz_state_laws.specs.Reads.{AsksThere, Passes, ReadsThere, is_there};
ghost use Rattle.mz_state_laws.specs.Well.{IsTableBag, IsWell, IsWellOver, scope_in};

/// In a well state each place in the plan of a query is within the columns below it and of the type
/// that its use needs: by the columns of the items, and by the types of all tables ever made, with
/// those of the plans of all indexes. Takes no memory.
pub fn plans_are_well_formed()
    ensures items { (state : Sequential) → IsWell state
        → (cluster : ℕ) (query : List Select) (as_of : Option ℕ)
        → IfOk (resolution (scope_in state cluster) (statement.Query query as_of))
        (AsksWell state.database.items) }
    ensures types { (types : LeafTypes) (state : Sequential) → IsWellOver types state
        → (cluster : ℕ) (query : List Select) (as_of : Option ℕ)
        → IfOk (resolution (scope_in state cluster) (statement.Query query as_of))
        (AsksOver types (index_types types state.plans)) }
{}

/// In a well state the plan of a query or of a new index, in whatever cluster, reads at most four
/// tables, also through indexes, and is bounded over the rows that there are. Takes no memory.
pub fn plans_may_be_evaluated()
    ensures query { (state : Sequential) → IsWell state
        → (cluster : ℕ) (query : List Select) (as_of : Option ℕ)
        → IfOk (resolution (scope_in state cluster) (statement.Query query as_of))
        (AsksEvaluable state) }
    ensures index { (state : Sequential) → IsWell state → (cluster : ℕ) (name on : List ℕ)
        → IfOk (resolution (scope_in state cluster) (statement.CreateIndex name on))
        (AsksEvaluable state) }
{}

/// So it is with each index that was ever made, whether it is still there or not. Takes no memory.
pub fn indexes_may_be_evaluated()
    ensures { (state : Sequential) → IsWell state → (number : ℕ)
        → IsEvaluable state (node.Index number) }
{}

/// Over any rows of the types of all tables, no table with more than one may have, a plan that is
/// well formed over these types and reads at most four tables is bounded; and so are what a query
/// asks for, and each index. These may be the rows of another time, and of tables that were
/// dropped: all bags of what tables may have are such rows, and count none below 0. Takes no
/// memory.
pub fn formed_plans_are_bounded()
    ensures plan { (types : LeafTypes) (state : Sequential) → IsWellOver types state
        → (rows : Leaves) → AreWithin most_rows rows → AreTyped types rows
        → (plan : Plan) → tables_read (index_reads state.plans) plan ≤ most_tables
        → IsFormedOver types (index_types types state.plans) plan
        → IsBoundedOver rows state.plans plan }
    ensures query { (types : LeafTypes) (state : Sequential) → IsWellOver types state
        → (rows : Leaves) → AreWithin most_rows rows → AreTyped types rows
        → (cluster : ℕ) (query : List Select) (as_of : Option ℕ)
        → IfOk (resolution (scope_in state cluster) (statement.Query query as_of))
        (AsksBounded rows state.plans) }
    ensures index { (types : LeafTypes) (state : Sequential) → IsWellOver types state
        → (rows : Leaves) → AreWithin most_rows rows → AreTyped types rows
        → (number : ℕ) → IsBoundedOver rows state.plans (node.Index number) }
    ensures bags { (types : LeafTypes) (bags : Bags)
        → Each (λ bag. IsTableBag (types bag.0) bag.1) bags
        → AreWithin most_rows (table_rows bags) × AreTyped types (table_rows bags)
        × ((number : ℕ) → IsNotNegative (table_rows bags number)) }
{}

/// What a query or a new index asks for in a well state reads only tables that are there, also
/// through the plans of indexes that were dropped; and so does each index that is there. Takes no
/// memory.
pub fn tables_read_are_there()
    ensures query { (state : Sequential) → IsWell state
        → (cluster : ℕ) (query : List Select) (as_of : Option ℕ)
        → IfOk (resolution (scope_in state cluster) (statement.Query query as_of))
        (AsksThere state) }
    ensures index { (state : Sequential) → IsWell state → (cluster : ℕ) (name on : List ℕ)
        → IfOk (resolution (scope_in state cluster) (statement.CreateIndex name on))
        (AsksThere state) }
    ensures made { (state : Sequential) → IsWell state
        → (item : Item) → Contains state.database.items item → is_index item.kind ≡ true
        → ReadsThere state (node.Index item.id) }
{}

/// A plan that reads only tables that are there gives the same over any rows that are theirs: bags
/// under numbers that no item has any more change nothing. Takes no memory.
pub fn dropped_tables_change_nothing()
    ensures rows { (state : Sequential) (rows : Leaves)
        → ((number : ℕ) → Passes (is_there state.database.items) number
        → rows number ≡ table_rows state.database.bags number)
        → (plan : Plan) → ReadsThere state plan
        → meaning rows (index_rows rows state.plans) plan ≡ rows_of state plan }
    ensures bags { (state : Sequential) (more : Bags)
        → Each (λ bag. is_there state.database.items bag.0 ≡ false) more
        → (plan : Plan) → ReadsThere state plan
        → let rows = table_rows (state.database.bags ++ more) in
        meaning rows (index_rows rows state.plans) plan ≡ rows_of state plan }
{}

/// In tables with the rows and the plans of a well state a plan that may be evaluated there is
/// bounded, which is what an evaluation asks, and so is what a query asks for; and each plan means
/// the rows that the state has for it. Takes no memory.
pub fn evaluations_are_bounded()
    ensures plan { (state : Sequential) (tables : TableBags) → AreOf state tables
        → (plan : Plan) → IsEvaluable state plan → IsBoundedIn tables plan }
    ensures query { (state : Sequential) → IsWell state
        → (tables : TableBags) → AreOf state tables
        → (cluster : ℕ) (query : List Select) (as_of : Option ℕ)
        → IfOk (resolution (scope_in state cluster) (statement.Query query as_of))
        (AsksBoundedIn tables) }
    ensures rows { (state : Sequential) (tables : TableBags) → AreOf state tables
        → (plan : Plan) → meaning_of plan tables ≡ rows_of state plan }
{}

/// In a well state a query is told rows that are there once at least, whose counts fit, also in
/// sum, and whose values have the types of the query's columns. Takes no memory.
pub fn queries_are_told_rows()
    ensures rows { (state : Sequential) → IsWell state → (cluster : ℕ) (statement : Statement)
        → TellsRows (seq state cluster statement).response }
    ensures types { (state : Sequential) → IsWell state → (cluster : ℕ) (query : List Select)
        → IfOk (query_in (scope_in state cluster) query) (HasRowsOf state) }
{}
