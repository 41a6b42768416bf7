//! What a statement asks for, its names resolved.
ghost use Rattle.std.specs.Prelude.{◌≡◌, IfOk};

use crate::{Cond, Plan};
use mz_statement::{Columns, Statement};
use mz_value::{Name, Rows};
use std::alloc::{AllocError, Global};

/// A command or a query whose names are the numbers of items and places of columns.
#[derive(Drop)]
pub enum Resolved {
    /// Makes a table with these columns.
    CreateTable(Name, Columns),
    /// Gives a query with these columns a name.
    CreateView(Name, Columns, Statement),
    /// Makes an index on the item of this number, with its plan and its cluster.
    CreateIndex(Name, u64, Plan, u64),
    /// Removes the item of this number.
    Drop(u64),
    /// Puts rows into the table of this number.
    Insert(u64, Rows),
    /// Takes the rows out of the table of this number that meet the condition, or all.
    Delete(u64, Option<Cond>),
    /// Asks for the rows of a plan.
    Query(Plan),
}

// A copy of a condition, where there is one.
fn copied_condition(alloc: Global, cond: &Option<Cond>) -> Result<Option<Cond>, AllocError>
    ensures { IfOk result (λ copy. copy ≡ cond.now) }
{
    Ok(match cond {
        Some(cond) => Some(cond.try_copy(alloc)?),
        None => None,
    })
}

impl Resolved {
    /// A copy of what is asked for.
    pub fn try_copy(&self, alloc: Global) -> Result<Resolved, AllocError>
        ensures { IfOk result (λ copy. copy ≡ self.now) }
    {
        Ok(match self {
            Resolved::CreateTable(name, columns) => {
                Resolved::CreateTable(name.try_copy(alloc)?, columns.try_copy(alloc)?)
            }
            Resolved::CreateView(name, columns, query) => {
                let name = name.try_copy(alloc)?;
                Resolved::CreateView(name, columns.try_copy(alloc)?, query.try_copy(alloc)?)
            }
            Resolved::CreateIndex(name, on, plan, cluster) => {
                let name = name.try_copy(alloc)?;
                Resolved::CreateIndex(name, *on, plan.try_copy(alloc)?, *cluster)
            }
            Resolved::Drop(item) => Resolved::Drop(*item),
            Resolved::Insert(table, rows) => Resolved::Insert(*table, rows.try_copy(alloc)?),
            Resolved::Delete(table, cond) => {
                Resolved::Delete(*table, copied_condition(alloc, cond)?)
            }
            Resolved::Query(plan) => Resolved::Query(plan.try_copy(alloc)?),
        })
    }
}
