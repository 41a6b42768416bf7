//! The plans of all indexes that were ever made.
ghost use Rattle.std.specs.Prelude.{◌≡◌, true, nat_lt};
ghost use Rattle.std.specs.List.{list_all};
ghost use Rattle.mz_plan.specs.Indexes.{descend};

use crate::Plan;
use std::marker::Model;

/// The plan of each index that was ever made, with the index's number, the newest first: numbers descend.
/// In another order an index over an index would have no row.
#[derive(Drop)]
pub struct MadePlans {
    plans: Vec<(u64, Plan)>,
}

impl Model for MadePlans {
    ghost use Rattle.std.specs.Prelude.{◌≡◌, true, List, ℕ};
    ghost use Rattle.std.specs.Coded.{codes};
    ghost use Rattle.mz_plan.specs.Indexes.{descend};
    ghost use Rattle.mz_plan.specs.declared.plan.Plan.{Plan};
    ghost use Rattle.mz_plan.specs.contracts.plan.Plan as the_plan;

    ghost Value = { List (ℕ × Plan) };

    ghost coded = { Prim.hlevel (codes, the_plan.the_row.coded) };

    ghost view = { λ m. m.plans.items };

    ghost invariant = { λ m. descend m.plans.items ≡ true };
}

// Whether each of the plans has a number below this one.
fn are_below(number: u64, plans: &[(u64, Plan)]) -> bool
    ensures { result ≡ list_all (λ older. nat_lt older.0 number) plans.now }
{
    plans.iter().all(|older| older.0 < number)
}

/// Whether the numbers descend. It goes through the plans once for each of them, and takes no memory.
pub fn are_newest_first(plans: &[(u64, Plan)]) -> bool
    ensures { result ≡ descend plans.now }
{
    match plans {
        [] => true,
        [newest, older @ ..] => are_below(newest.0, older) && are_newest_first(older),
    }
}

impl MadePlans {
    /// The plans, of which the newest stands first. Takes no memory.
    pub fn from_vec(plans: Vec<(u64, Plan)>) -> MadePlans
        requires { descend plans.items ≡ true }
        ensures { result ≡ plans.items }
    {
        MadePlans { plans }
    }

    /// The plans with their numbers, from the newest. Takes no memory.
    pub fn as_slice(&self) -> &[(u64, Plan)]
        ensures plans { result.now ≡ self.now }
        ensures order { descend self.now ≡ true }
    {
        self.plans.as_slice()
    }
}
