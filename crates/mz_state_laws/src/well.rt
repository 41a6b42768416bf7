//! What no statement breaks.
ghost use Rattle.std.specs.Prelude.{◌≡◌, ◌<◌, ◌≤ℤ◌, pos, Contains, List, ℕ, Ok};
ghost use Rattle.std.specs.FinMap.{entries};
ghost use Rattle.std.specs.List.{AllByRecursion as Each};
ghost use Rattle.mz_bag.specs.Bag.{Counts};
ghost use Rattle.mz_statement.specs.Statement.{IsStatement};
ghost use Rattle.mz_statement.specs.declared.column.Column.{Column};
ghost use Rattle.mz_statement.specs.declared.statement.Statement.{Statement};
ghost use Rattle.mz_plan.specs.Types.{types_of};
ghost use Rattle.mz_plan.specs.declared.item.Item.{Item};
ghost use Rattle.mz_plan.specs.declared.item.ItemKind.TheVariants.{Table};
ghost use Rattle.mz_plan.specs.declared.resolved.Resolved.{Resolved};
ghost use Rattle.mz_resolution.specs.Resolution.{resolution};
ghost use Rattle.mz_resolve_laws.specs.TypedOver.{LeafTypes};
ghost use Rattle.mz_log.specs.CarriedOut.{carried_out, seq};
ghost use Rattle.mz_log.specs.Sequential.{Sequential, bag_at, opening};
ghost use Rattle.mz_state_laws.specs.Growth.{Continues};
ghost use Rattle.mz_state_laws.specs.Well.{IsTableBag, IsWell, IsWellAfter, IsWellOver, scope_in};

/// The opening state is well. Takes no memory.
#[tactic(auto, using(crate::proofs::OpeningWell::opening_well))]
pub fn opening_is_well()
    ensures { IsWell opening }
{}

/// A statement that a text can spell leaves a well state well, in whatever cluster it is carried
/// out; and so does what it asks for there. Over types of all tables it leaves a state that is well
/// over types which are the same for each number that was used before. Takes no memory.
pub fn carrying_out_keeps_it()
    ensures statement { (state : Sequential) → IsWell state
        → (cluster : ℕ) (statement : Statement) → IsStatement statement
        → IsWell (seq state cluster statement).state }
    ensures asked { (state : Sequential) → IsWell state
        → (cluster : ℕ) (statement : Statement) → IsStatement statement
        → (asked : Resolved) → resolution (scope_in state cluster) statement ≡ Ok asked
        → IsWell (carried_out state asked).state }
    ensures types { (types : LeafTypes) (state : Sequential) → IsWellOver types state
        → (cluster : ℕ) (statement : Statement) → IsStatement statement
        → IsWellAfter types state (seq state cluster statement).state }
{}

/// In a well state each table has rows of its columns' types, no more than a table may have, and
/// each row that is there is so once at least. Takes no memory.
pub fn tables_have_their_rows()
    ensures bag { (state : Sequential) → IsWell state
        → (item : Item) → Contains state.database.items item
        → (columns : List Column) → item.kind ≡ Table columns
        → IsTableBag (types_of columns) (bag_at state.database.bags item.id) }
    ensures rows { (state : Sequential) → IsWell state → (number : ℕ)
        → Each (λ w. pos 1 ≤ℤ w.1) (entries (bag_at state.database.bags number)) }
{}

/// The types of the numbers that were used stay, from a state to itself and over several; so a
/// table that was dropped might have later what it had, and each table of a well state has a number
/// that was used. Takes no memory.
pub fn types_stay()
    ensures itself { (types : LeafTypes) (state : Sequential) → IsWellOver types state
        → IsWellAfter types state state }
    ensures twice { (types : LeafTypes) (one two three : Sequential) → Continues one two
        → (first : IsWellAfter types one two) → IsWellAfter first.later two three
        → IsWellAfter types one three }
    ensures bag { (types : LeafTypes) (before after : Sequential)
        → (later : IsWellAfter types before after) → (number : ℕ) (bag : Counts)
        → number < before.database.next → IsTableBag (types number) bag
        → IsTableBag (later.later number) bag }
    ensures numbers { (types : LeafTypes) (state : Sequential) → IsWellOver types state
        → Each (λ bag. bag.0 < state.database.next) state.database.bags }
{}
