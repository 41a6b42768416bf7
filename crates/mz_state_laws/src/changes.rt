//! What statements change, and where the changes lead.
ghost use Rattle.std.specs.Prelude.{◌≡◌, ◌++◌, ℕ, List, true};
ghost use Rattle.std.specs.List.{AllByRecursion as Each};
ghost use Rattle.mz_bag.specs.Weighted.{Weighted};
ghost use Rattle.mz_statement.specs.declared.statement.Statement.{Statement};
ghost use Rattle.mz_log.specs.CarriedOut.{seq};
ghost use Rattle.mz_log.specs.Sequential.{Bags, Change, Sequential, added, after_changes, bag_at, with_rows};
ghost use Rattle.mz_state_laws.specs.Changes.{ChangeFits};
ghost use Rattle.mz_state_laws.specs.Growth.{has_bag};

/// A statement leaves the state to which its changes lead; changes of several lead on, one after
/// another; and rows that come to a table are added to its bag. Takes no memory.
pub fn changes_lead_on()
    ensures statement { (state : Sequential) (cluster : ℕ) (statement : Statement)
        → (seq state cluster statement).state
        ≡ after_changes state (seq state cluster statement).changes }
    ensures both { (state : Sequential) (some more : List Change)
        → after_changes state (some ++ more) ≡ after_changes (after_changes state some) more }
    ensures rows { (bags : Bags) (table : ℕ) (rows : Weighted) → has_bag table bags ≡ true
        → bag_at (with_rows table rows bags) table ≡ added (bag_at bags table) rows }
{}

/// What a statement makes gets the next number, what it removes is there and none depends on it,
/// and rows come to a table that is there. Takes no memory.
#[tactic(auto, using(crate::proofs::ChangesFit::seq_fits))]
pub fn changes_fit_the_state()
    ensures { (state : Sequential) (cluster : ℕ) (statement : Statement)
        → Each (ChangeFits state) (seq state cluster statement).changes }
{}
