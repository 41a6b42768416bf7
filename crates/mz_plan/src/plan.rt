//! Plans: what a query asks for, as a tree of operators over tables and indexes.
ghost use Rattle.std.specs.Prelude.{◌≡◌, IfOk, option_map};
ghost use Rattle.mz_plan.specs.Spine.{first_of};

use crate::{Aggregates, Cond, Pairs, Places};
use sqlite_items::Boxed;
use std::alloc::{AllocError, Global};

/// A query over items that are named by their numbers. `specs/Meaning.antt` says what rows it gives.
pub enum Plan {
    /// The rows of a table.
    Table(u64),
    /// The rows of an index, which are those of the plan that it was made with.
    Index(u64),
    /// The rows that meet the condition.
    Filter(Boxed<Plan>, Cond),
    /// Of each row the columns at these places.
    Project(Boxed<Plan>, Places),
    /// Each left row with each right row, one behind the other, where the columns of each pair are equal.
    Join(Boxed<Plan>, Boxed<Plan>, Pairs),
    /// The rows of both.
    Union(Boxed<Plan>, Boxed<Plan>),
    /// One row for each key that is there: the columns at these places, and then the aggregates.
    Group(Boxed<Plan>, Places, Aggregates),
    /// Each row once.
    Distinct(Boxed<Plan>),
}

/// Lets a plan go by a loop along the first plans below it. What is to the right of them goes by itself, so
/// calls nest as deep as joins and unions do to the right, and no deeper for what stands on them.
impl Drop for Plan {
    fn drop(mut self) {
        'spine: loop {
            match self {
                Plan::Table(_) => return,
                Plan::Index(_) => return,
                Plan::Filter(below, _) => self = below.into_inner(),
                Plan::Project(below, _) => self = below.into_inner(),
                Plan::Join(left, right, _) => {
                    let _right = right.into_inner();
                    self = left.into_inner();
                }
                Plan::Union(left, right) => {
                    let _right = right.into_inner();
                    self = left.into_inner();
                }
                Plan::Group(below, _, _) => self = below.into_inner(),
                Plan::Distinct(below) => self = below.into_inner(),
            }
        }
    }
}

impl Plan {
    /// The first plan below, where there is one. Takes no memory.
    pub fn first(&self) -> Option<&Plan>
        ensures { option_map (λ below. below.now) result ≡ first_of self.now }
    {
        match self {
            Plan::Table(_) => None,
            Plan::Index(_) => None,
            Plan::Filter(below, _cond) => Some(below.get()),
            Plan::Project(below, _places) => Some(below.get()),
            Plan::Join(left, _right, _pairs) => Some(left.get()),
            Plan::Union(left, _right) => Some(left.get()),
            Plan::Group(below, _places, _aggregates) => Some(below.get()),
            Plan::Distinct(below) => Some(below.get()),
        }
    }

    /// A copy of the plan, made by a loop along the first plans below it.
    pub fn try_copy(&self, alloc: Global) -> Result<Plan, AllocError>
        ensures { IfOk result (λ copy. copy ≡ self.now) }
    {
        self.renamed(alloc, &[])
    }
}
