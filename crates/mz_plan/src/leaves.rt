//! The leaves of plans: the tables and indexes that they name by their numbers.
ghost use Rattle.std.specs.Prelude.{◌≡◌, ◌++◌, IfOk, OnOk};
ghost use Rattle.mz_plan.specs.Leaves.{leaves_of, new_number, renamed};
ghost use Rattle.mz_plan.specs.Spine.{renamed_over};

use crate::Plan;
use crate::spine::spine;
use sqlite_items::Boxed;
use std::alloc::{AllocError, Global};

// Pushes the numbers of a plan's leaves, from the left.
#[tactic(auto, using(crate::proofs::LeafRules::leaf_rules))]
fn push_leaves(plan: &Plan, found: &mut Vec<u64>) -> Result<(), AllocError>
    ensures { OnOk result (found.new.items ≡ found.old.items ++ leaves_of plan.now) }
{
    match plan {
        Plan::Table(item) => found.push(*item)?,
        Plan::Index(item) => found.push(*item)?,
        Plan::Filter(below, _cond) => push_leaves(below.get(), found)?,
        Plan::Project(below, _places) => push_leaves(below.get(), found)?,
        Plan::Join(left, right, _pairs) => {
            push_leaves(left.get(), found)?;
            push_leaves(right.get(), found)?;
        }
        Plan::Union(left, right) => {
            push_leaves(left.get(), found)?;
            push_leaves(right.get(), found)?;
        }
        Plan::Group(below, _places, _aggregates) => push_leaves(below.get(), found)?,
        Plan::Distinct(below) => push_leaves(below.get(), found)?,
    }
    Ok(())
}

// The number that stands beside a number in the first pair that begins with it, or else the number itself.
fn new_number(names: &[(u64, u64)], item: u64) -> u64
    ensures { result ≡ new_number names.now item }
{
    match names {
        [] => item,
        [first, rest @ ..] => {
            if first.0 == item {
                first.1
            } else {
                new_number(rest, item)
            }
        }
    }
}

// The plan below an operator, its leaves renamed.
#[cycle(rename)]
fn renamed_below(
    alloc: Global,
    plan: &Boxed<Plan>,
    names: &[(u64, u64)],
) -> Result<Boxed<Plan>, AllocError>
    ensures { IfOk result (λ below. below ≡ renamed (new_number names.now) plan.now) }
{
    Boxed::new(alloc, plan.get().renamed(alloc, names)?)
}

impl Plan {
    /// The numbers of the tables and indexes that the plan names, from the left, each as often as it is named.
    pub fn leaves(&self, alloc: Global) -> Result<Vec<u64>, AllocError>
        ensures { IfOk result (λ found. found.items ≡ leaves_of self.now) }
    {
        let mut found = Vec::new(alloc);
        push_leaves(self, &mut found)?;
        Ok(found)
    }

    // The plan's operator over another first plan, with what else is below it renamed.
    #[cycle(rename)]
    #[tactic(auto, using(crate::proofs::OverRules::over_rules))]
    fn renamed_over(
        &self,
        alloc: Global,
        first: Plan,
        names: &[(u64, u64)],
    ) -> Result<Plan, AllocError>
        ensures { IfOk result (λ plan. plan ≡ renamed_over (new_number names.now) self.now first) }
    {
        match self {
            Plan::Table(item) => Ok(Plan::Table(new_number(names, *item))),
            Plan::Index(item) => Ok(Plan::Index(new_number(names, *item))),
            Plan::Filter(_below, cond) => {
                let below = Boxed::new(alloc, first)?;
                Ok(Plan::Filter(below, cond.try_copy(alloc)?))
            }
            Plan::Project(_below, places) => {
                let below = Boxed::new(alloc, first)?;
                Ok(Plan::Project(below, places.try_copy(alloc)?))
            }
            Plan::Join(_left, right, pairs) => {
                let left = Boxed::new(alloc, first)?;
                let right = renamed_below(alloc, right, names)?;
                Ok(Plan::Join(left, right, pairs.try_copy(alloc)?))
            }
            Plan::Union(_left, right) => {
                let left = Boxed::new(alloc, first)?;
                Ok(Plan::Union(left, renamed_below(alloc, right, names)?))
            }
            Plan::Group(_below, places, aggregates) => {
                let below = Boxed::new(alloc, first)?;
                let places = places.try_copy(alloc)?;
                Ok(Plan::Group(below, places, aggregates.try_copy(alloc)?))
            }
            Plan::Distinct(_below) => Ok(Plan::Distinct(Boxed::new(alloc, first)?)),
        }
    }

    /// A copy of the plan in which each table and each index has the number that stands beside its own in the
    /// first pair that begins with it. One that begins no pair keeps its number. Each leaf costs a walk over
    /// the pairs. It is made by a loop, from the end of the plan's spine.
    #[cycle(rename)]
    pub fn renamed(&self, alloc: Global, names: &[(u64, u64)]) -> Result<Plan, AllocError>
        ensures { IfOk result (λ plan. plan ≡ renamed (new_number names.now) self.now) }
    {
        let mut spine = spine(alloc, self)?;
        let mut made = Plan::Table(0);
        'up: while let Some(plan) = spine.pop() {
            made = plan.renamed_over(alloc, made, names)?;
        }
        Ok(made)
    }
}
