//! What holds of the definition: each law is the contract of a function that does nothing.
ghost use Rattle.std.specs.Prelude.{List};
ghost use Rattle.mz_plan.specs.Items.{Ascend};
ghost use Rattle.mz_plan.specs.declared.item.Item.{Item};
ghost use Rattle.mz_plan.specs.declared.resolved.Resolved.{Resolved};
ghost use Rattle.mz_seq.specs.Asked.{IsAsked, NamesThere};

/// What a statement asks a DROP, an INSERT or a DELETE of is there: the item, or the table.
#[tactic(auto, using(crate::proofs::AskedLemmas::asked_there))]
pub fn what_is_asked_is_there()
    ensures { (items : List Item) (asked : Resolved) → Ascend items → IsAsked items asked
        → NamesThere items asked }
{}
