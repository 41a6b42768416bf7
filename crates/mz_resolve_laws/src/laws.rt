//! What holds of the definition of resolution: each law is the contract of a function that does nothing.
//! The commands of a catalog and the dataflows of replicas rest on these.
ghost use Rattle.std.specs.Prelude.{◌≡◌, ◌<◌, ◌≤◌, All, IfOk, List, [], ◌∷◌, Ok, Option, ℕ, false, length};
ghost use Rattle.mz_resolution.specs.Queries.{most_columns};
ghost use Rattle.mz_value.specs.declared.datum.Datum.{Datum};
ghost use Rattle.mz_statement.specs.declared.column.Column.{Column};
ghost use Rattle.mz_statement.specs.declared.condition.Test.{Test};
ghost use Rattle.mz_statement.specs.declared.query.Select.{Select};
ghost use Rattle.mz_statement.specs.declared.statement.Statement.{Statement};
ghost use Rattle.mz_statement.specs.declared.statement.Statement.TheVariants as statement;
ghost use Rattle.mz_plan.specs.declared.item.Item.{Item};
ghost use Rattle.mz_plan.specs.declared.scope.Scope.{Scope};
ghost use Rattle.mz_plan.specs.Items.{Ascend, dependents, depends, names, is_index, is_table, is_view};
ghost use Rattle.mz_resolution.specs.Resolution.{named, newest_first, query_in, resolution};
ghost use Rattle.mz_plan.specs.Masses.{AreWithin};
ghost use Rattle.mz_plan.specs.Meaning.{Leaves};
ghost use Rattle.mz_plan.specs.RowTypes.{AreTyped};
ghost use Rattle.mz_plan.specs.Small.{index_reads, most_rows, tables_read};
ghost use Rattle.mz_plan.specs.Types.{types_of};
ghost use Rattle.mz_resolve_laws.specs.Alike.{AreAlike, GivesAlike};
ghost use Rattle.mz_resolve_laws.specs.Growth.{IsForeignIndex, IsMadeBy, IsNewIn, in_cluster, with_item, without_item};
ghost use Rattle.mz_plan.specs.Indexes.{AreNewestFirst};
ghost use Rattle.mz_resolve_laws.specs.OfScope.{AsksOfScope, ChangesOfScope, IndexesOfScope, NamesBelow};
ghost use Rattle.mz_resolve_laws.specs.Sound.{IsSound};
ghost use Rattle.mz_plan.specs.PlanTypes.{index_types};
ghost use Rattle.mz_resolve_laws.specs.SoundOver.{IsNewAmong, IsSoundOver, Made, ReadsFew, made_with};
ghost use Rattle.mz_resolve_laws.specs.Star.{narrow_named, select_star};
ghost use Rattle.mz_resolve_laws.specs.TypedOver.{AsksBounded, AsksOver, IndexesOver, IsRelationOver, IsTypedOver, LeafTypes};
ghost use Rattle.mz_resolve_laws.specs.WellFormed.{AsksWell, DeletesWell, IndexesWell, InsertsWell, IsTypedRelation};

/// What a statement asks for is of its scope. The plan of a query or of an index names only tables of the
/// scope and indexes of its cluster. What an index is on, what is changed and what is dropped is the item
/// that is called so, and it is of the kind that the statement wants. Takes no memory.
pub fn plans_are_of_the_scope()
    ensures query { (scope : Scope) (query : List Select) (as_of : Option ℕ)
        → IfOk (resolution scope (statement.Query query as_of)) (AsksOfScope scope) }
    ensures index { (scope : Scope) (name on : List ℕ)
        → IfOk (resolution scope (statement.CreateIndex name on)) (IndexesOfScope scope on) }
    ensures insert { (scope : Scope) (name : List ℕ) (rows : List (List Datum))
        → IfOk (resolution scope (statement.Insert name rows)) (ChangesOfScope scope is_table name) }
    ensures delete { (scope : Scope) (name : List ℕ) (test : Option Test)
        → IfOk (resolution scope (statement.Delete name test)) (ChangesOfScope scope is_table name) }
    ensures drop_table { (scope : Scope) (name : List ℕ)
        → IfOk (resolution scope (statement.DropTable name)) (ChangesOfScope scope is_table name) }
    ensures drop_view { (scope : Scope) (name : List ℕ)
        → IfOk (resolution scope (statement.DropView name)) (ChangesOfScope scope is_view name) }
    ensures drop_index { (scope : Scope) (name : List ℕ)
        → IfOk (resolution scope (statement.DropIndex name)) (ChangesOfScope scope is_index name) }
{}

/// Where each item of the scope has a number below a limit, so has each leaf of the plan of a query or of an
/// index, and what the index is on. So with the next number for a limit, the plan of a new index names only
/// older items. Takes no memory.
pub fn plans_name_older_items()
    ensures query { (scope : Scope) (limit : ℕ) → All (λ item. item.id < limit) scope.items
        → (query : List Select) (as_of : Option ℕ)
        → IfOk (resolution scope (statement.Query query as_of)) (NamesBelow limit) }
    ensures index { (scope : Scope) (limit : ℕ) → All (λ item. item.id < limit) scope.items
        → (name on : List ℕ)
        → IfOk (resolution scope (statement.CreateIndex name on)) (NamesBelow limit) }
{}

/// In a sound scope the plan of a query or of an index is well formed: each place in it is within the columns
/// below it, and of the type that its use needs. The plan of a query gives columns of the types that the query
/// is said to have, and that of an index those of the relation that the index is on. Takes no memory.
pub fn plans_are_well_formed()
    ensures relation { (scope : Scope) → IsSound scope → (query : List Select)
        → IfOk (query_in scope query) (IsTypedRelation scope.items) }
    ensures query { (scope : Scope) → IsSound scope → (query : List Select) (as_of : Option ℕ)
        → IfOk (resolution scope (statement.Query query as_of)) (AsksWell scope.items) }
    ensures index { (scope : Scope) → IsSound scope → (name on : List ℕ)
        → IfOk (resolution scope (statement.CreateIndex name on)) (IndexesWell scope.items) }
{}

/// Where the items of a scope are in order of their numbers, the rows of an INSERT have the types of the
/// table's columns, and each comparison of a DELETE is of columns of the table, and fits their types.
/// Takes no memory.
pub fn changes_fit_their_tables()
    ensures insert { (scope : Scope) → Ascend scope.items → (name : List ℕ) (rows : List (List Datum))
        → IfOk (resolution scope (statement.Insert name rows)) (InsertsWell scope.items) }
    ensures delete { (scope : Scope) → Ascend scope.items → (name : List ℕ) (test : Option Test)
        → IfOk (resolution scope (statement.Delete name test)) (DeletesWell scope.items) }
{}

/// A scope with no items is sound, and a sound scope is so in every cluster. It stays sound with the item that
/// a CREATE TABLE, CREATE VIEW or CREATE INDEX makes, whose number is above those of all, and without an item
/// on which none depends. Takes no memory.
pub fn soundness_is_kept()
    ensures none { (cluster : ℕ) → IsSound (record { items = []; cluster = cluster }) }
    ensures cluster { (scope : Scope) (cluster : ℕ) → IsSound scope → IsSound (in_cluster cluster scope) }
    ensures table { (scope : Scope) → IsSound scope → (item : Item) → IsNewIn scope item
        → (name : List ℕ) (columns : List Column)
        → IfOk (resolution scope (statement.CreateTable name columns))
        (λ done. IsMadeBy done item → IsSound (with_item scope item)) }
    ensures view { (scope : Scope) → IsSound scope → (item : Item) → IsNewIn scope item
        → (name : List ℕ) (query : List Select)
        → IfOk (resolution scope (statement.CreateView name query))
        (λ done. IsMadeBy done item → IsSound (with_item scope item)) }
    ensures index { (scope : Scope) → IsSound scope → (item : Item) → IsNewIn scope item
        → (name on : List ℕ)
        → IfOk (resolution scope (statement.CreateIndex name on))
        (λ done. IsMadeBy done item → IsSound (with_item scope item)) }
    ensures drop { (scope : Scope) → IsSound scope → (number : ℕ)
        → dependents number scope.items ≡ [] → IsSound (without_item number scope) }
{}

/// In a scope that is sound over the plans of all indexes ever made, the plan of a query reads at most as many
/// tables as the query names, also through its indexes; and that of a query or of an index reads at most four.
/// Takes no memory.
pub fn plans_read_few_tables()
    ensures relation { (plans : Made) (scope : Scope) → IsSoundOver plans scope → (query : List Select)
        → IfOk (query_in scope query) (λ relation. tables_read (index_reads plans) relation.plan ≤ relation.tables) }
    ensures query { (plans : Made) (scope : Scope) → IsSoundOver plans scope → (query : List Select) (as_of : Option ℕ)
        → IfOk (resolution scope (statement.Query query as_of)) (ReadsFew plans) }
    ensures index { (plans : Made) (scope : Scope) → IsSoundOver plans scope → (name on : List ℕ)
        → IfOk (resolution scope (statement.CreateIndex name on)) (ReadsFew plans) }
{}

/// A scope with no items is sound over no plans, and a scope that is sound over plans is so in every cluster. It
/// stays so with the item that a CREATE makes, whose number is above those of all items and of all indexes ever
/// made, and without an item on which none depends. Takes no memory.
pub fn soundness_over_plans_is_kept()
    ensures none { (cluster : ℕ) → IsSoundOver [] (record { items = []; cluster = cluster }) }
    ensures cluster { (plans : Made) (scope : Scope) (cluster : ℕ) → IsSoundOver plans scope
        → IsSoundOver plans (in_cluster cluster scope) }
    ensures table { (plans : Made) (scope : Scope) → IsSoundOver plans scope
        → (item : Item) → IsNewIn scope item → IsNewAmong plans item.id → (name : List ℕ) (columns : List Column)
        → IfOk (resolution scope (statement.CreateTable name columns))
        (λ done. IsMadeBy done item → IsSoundOver (made_with item.id item.kind plans) (with_item scope item)) }
    ensures view { (plans : Made) (scope : Scope) → IsSoundOver plans scope
        → (item : Item) → IsNewIn scope item → IsNewAmong plans item.id → (name : List ℕ) (query : List Select)
        → IfOk (resolution scope (statement.CreateView name query))
        (λ done. IsMadeBy done item → IsSoundOver (made_with item.id item.kind plans) (with_item scope item)) }
    ensures index { (plans : Made) (scope : Scope) → IsSoundOver plans scope
        → (item : Item) → IsNewIn scope item → IsNewAmong plans item.id → (name on : List ℕ)
        → IfOk (resolution scope (statement.CreateIndex name on))
        (λ done. IsMadeBy done item → IsSoundOver (made_with item.id item.kind plans) (with_item scope item)) }
    ensures drop { (plans : Made) (scope : Scope) → IsSoundOver plans scope → (number : ℕ)
        → dependents number scope.items ≡ [] → IsSoundOver plans (without_item number scope) }
{}

/// Over the types of all tables and the plans of all indexes ever made, the plan of a query or of an index is well
/// formed, and gives columns of the types that the query, or what the index is on, is said to have. An index that
/// was dropped has its types still. Takes no memory.
pub fn plans_have_types()
    ensures relation { (tables : LeafTypes) (plans : Made) (scope : Scope) → IsSound scope
        → IsTypedOver tables plans scope → (query : List Select)
        → IfOk (query_in scope query) (IsRelationOver tables (index_types tables plans)) }
    ensures query { (tables : LeafTypes) (plans : Made) (scope : Scope) → IsSound scope
        → IsTypedOver tables plans scope → (query : List Select) (as_of : Option ℕ)
        → IfOk (resolution scope (statement.Query query as_of)) (AsksOver tables (index_types tables plans)) }
    ensures index { (tables : LeafTypes) (plans : Made) (scope : Scope) → IsSound scope
        → IsTypedOver tables plans scope → (name on : List ℕ)
        → IfOk (resolution scope (statement.CreateIndex name on))
        (IndexesOver tables (index_types tables plans) scope) }
{}

/// In a scope that is sound and typed over the plans of all indexes ever made, the plan of a query or of an index is
/// bounded over them, where no table has more rows than a table may have, and all of its types. Takes no memory.
pub fn resolved_plans_are_bounded()
    ensures query { (tables : LeafTypes) (plans : Made) (scope : Scope) → IsSoundOver plans scope
        → IsTypedOver tables plans scope
        → (rows : Leaves) → AreWithin most_rows rows → AreTyped tables rows
        → (query : List Select) (as_of : Option ℕ)
        → IfOk (resolution scope (statement.Query query as_of)) (AsksBounded rows plans) }
    ensures index { (tables : LeafTypes) (plans : Made) (scope : Scope) → IsSoundOver plans scope
        → IsTypedOver tables plans scope
        → (rows : Leaves) → AreWithin most_rows rows → AreTyped tables rows
        → (name on : List ℕ)
        → IfOk (resolution scope (statement.CreateIndex name on)) (AsksBounded rows plans) }
{}

/// With no items a scope has types over those of any tables and no plans. A scope with types has them in every
/// cluster, with the item that a CREATE makes, whose number is new (that of a table has the types of its columns),
/// and without an item on which none depends. The types of numbers that nothing has yet change nothing.
/// Takes no memory.
pub fn types_are_kept()
    ensures none { (tables : LeafTypes) (cluster : ℕ) → IsTypedOver tables [] (record { items = []; cluster = cluster }) }
    ensures cluster { (tables : LeafTypes) (plans : Made) (scope : Scope) (cluster : ℕ)
        → IsTypedOver tables plans scope → IsTypedOver tables plans (in_cluster cluster scope) }
    ensures table { (tables : LeafTypes) (plans : Made) (scope : Scope) → IsTypedOver tables plans scope
        → (item : Item) → IsNewIn scope item
        → (name : List ℕ) (columns : List Column) → tables item.id ≡ types_of columns
        → IfOk (resolution scope (statement.CreateTable name columns))
        (λ done. IsMadeBy done item → IsTypedOver tables (made_with item.id item.kind plans) (with_item scope item)) }
    ensures view { (tables : LeafTypes) (plans : Made) (scope : Scope) → IsTypedOver tables plans scope
        → (item : Item) → IsNewIn scope item → (name : List ℕ) (query : List Select)
        → IfOk (resolution scope (statement.CreateView name query))
        (λ done. IsMadeBy done item → IsTypedOver tables (made_with item.id item.kind plans) (with_item scope item)) }
    ensures index { (tables : LeafTypes) (plans : Made) (scope : Scope) → IsSound scope
        → IsTypedOver tables plans scope
        → (item : Item) → IsNewIn scope item → (name on : List ℕ)
        → IfOk (resolution scope (statement.CreateIndex name on))
        (λ done. IsMadeBy done item → IsTypedOver tables (made_with item.id item.kind plans) (with_item scope item)) }
    ensures drop { (tables : LeafTypes) (plans : Made) (scope : Scope) → Ascend scope.items
        → IsTypedOver tables plans scope → (number : ℕ)
        → dependents number scope.items ≡ [] → IsTypedOver tables plans (without_item number scope) }
    ensures unused { (tables others : LeafTypes) (plans : Made) (scope : Scope) → AreNewestFirst plans
        → IsTypedOver tables plans scope → (limit : ℕ) → All (λ item. item.id < limit) scope.items → IsNewAmong plans limit
        → ((number : ℕ) → number < limit → tables number ≡ others number) → IsTypedOver others plans scope }
{}

/// In another cluster a query has the same columns and names as many tables, or meets the same refusal: the
/// cluster changes plans alone. Takes no memory.
pub fn clusters_change_plans_alone()
    ensures { (scope : Scope) (cluster : ℕ) (query : List Select)
        → GivesAlike AreAlike (query_in scope query) (query_in (in_cluster cluster scope) query) }
{}

/// What resolves in a scope resolves to the same without an index of another cluster. A query gives the same
/// or meets the same refusal, where neither it nor a view names the index. Takes no memory.
pub fn indexes_of_other_clusters_change_nothing()
    ensures relation { (scope : Scope) → Ascend scope.items → (index : Item) → IsForeignIndex scope index
        → (query : List Select) → IfOk (query_in scope query)
        (λ relation. query_in (without_item index.id scope) query ≡ Ok relation) }
    ensures unnamed { (scope : Scope) → Ascend scope.items → (index : Item) → IsForeignIndex scope index
        → All (λ item. depends item.kind index ≡ false) scope.items
        → (query : List Select) → names query index.name ≡ false
        → query_in scope query ≡ query_in (without_item index.id scope) query }
    ensures query { (scope : Scope) → Ascend scope.items → (index : Item) → IsForeignIndex scope index
        → (query : List Select) (as_of : Option ℕ)
        → IfOk (resolution scope (statement.Query query as_of))
        (λ done. resolution (without_item index.id scope) (statement.Query query as_of) ≡ Ok done) }
    ensures view { (scope : Scope) → Ascend scope.items → (index : Item) → IsForeignIndex scope index
        → (name : List ℕ) (query : List Select)
        → IfOk (resolution scope (statement.CreateView name query))
        (λ done. resolution (without_item index.id scope) (statement.CreateView name query) ≡ Ok done) }
    ensures index { (scope : Scope) → Ascend scope.items → (index : Item) → IsForeignIndex scope index
        → (name on : List ℕ)
        → IfOk (resolution scope (statement.CreateIndex name on))
        (λ done. resolution (without_item index.id scope) (statement.CreateIndex name on) ≡ Ok done) }
{}

/// A table or a view stands for what `SELECT * FROM` it gives: the same columns, the same plan and the same
/// number of tables, where it has no more columns than a result may have; and where it stands for nothing, the refusal is the
/// same. Takes no memory.
pub fn a_view_is_its_star()
    ensures relation { (scope : Scope) (name : List ℕ)
        → IfOk (named scope (newest_first scope) name) (λ found. length found.relation.columns ≤ most_columns
        → query_in scope (select_star name ∷ []) ≡ Ok found.relation) }
    ensures steps { (scope : Scope) (name : List ℕ) → query_in scope (select_star name ∷ []) ≡ narrow_named scope name }
{}

/// Two scopes with the same items and the same cluster resolve every statement alike. Takes no memory.
pub fn items_tell_all()
    ensures { (one other : Scope) → one.items ≡ other.items → one.cluster ≡ other.cluster
        → (says : Statement) → resolution one says ≡ resolution other says }
{}
