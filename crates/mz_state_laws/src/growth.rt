//! How a state follows from the one before.
ghost use Rattle.std.specs.Prelude.{◌≡◌, ◌≢◌, ◌<◌, ℕ, true, false};
ghost use Rattle.mz_statement.specs.declared.statement.Statement.{Statement};
ghost use Rattle.mz_plan.specs.declared.resolved.Resolved.{Resolved};
ghost use Rattle.mz_log.specs.CarriedOut.{Command, carried_out, seq};
ghost use Rattle.mz_log.specs.Sequential.{Sequential, bag_at};
ghost use Rattle.mz_log.specs.declared.reply.SeqReply.TheVariants.{Created, Dropped};
ghost use Rattle.mz_state_laws.specs.Growth.{Continues, KeepsItems, has_bag, touches};
ghost use Rattle.mz_state_laws.specs.Reads.{is_there};
ghost use Rattle.mz_state_laws.specs.Well.{IsWell};

/// The state that a statement leaves continues the one before: the next number doesn't fall, no
/// number is used again, and no plan of an index goes. So it is after several statements too.
/// Takes no memory.
pub fn states_continue()
    ensures statement { (state : Sequential) (cluster : ℕ) (statement : Statement)
        → Continues state (seq state cluster statement).state }
    ensures asked { (state : Sequential) (asked : Resolved)
        → Continues state (carried_out state asked).state }
    ensures itself { (state : Sequential) → Continues state state }
    ensures twice { (one two three : Sequential) → Continues one two → Continues two three
        → Continues one three }
{}

/// Only a CREATE and a DROP that succeed change the items, their numbers and the plans of indexes;
/// so a query is resolved after all else as it was before. Takes no memory.
#[tactic(auto, using(crate::proofs::ItemsStay::seq_items))]
pub fn items_stay()
    ensures { (state : Sequential) (cluster : ℕ) (statement : Statement)
        → ((number : ℕ) → (seq state cluster statement).response ≢ Command (Created number))
        → (seq state cluster statement).response ≢ Command Dropped
        → KeepsItems state (seq state cluster statement).state }
{}

/// A number that was used and that no item has any more is never an item's again; nor is that of a
/// table whose rows are gone. Takes no memory.
pub fn what_is_gone_stays_so()
    ensures number { (before after : Sequential) → Continues before after
        → (number : ℕ) → number < before.database.next
        → is_there before.database.items number ≡ false
        → is_there after.database.items number ≡ false }
    ensures bag { (before after : Sequential) → IsWell before → IsWell after
        → Continues before after
        → (number : ℕ) → has_bag number before.database.bags ≡ true
        → has_bag number after.database.bags ≡ false
        → is_there after.database.items number ≡ false }
{}

/// A number has the rows that it had, unless a command removes the item or changes these rows.
/// Takes no memory.
#[tactic(auto, using(crate::proofs::OthersStay::asked_stays))]
pub fn other_tables_stay()
    ensures { (state : Sequential) (asked : Resolved) (number : ℕ) → touches asked number ≡ false
        → bag_at (carried_out state asked).state.database.bags number
        ≡ bag_at state.database.bags number }
{}
