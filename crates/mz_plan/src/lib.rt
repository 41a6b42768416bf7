//! Plans of queries, and what they mean.
//! Promises nothing of its own but definitions: what rows a plan gives over the rows of its tables (`specs/Meaning.antt`), its
//! columns, and when it is well formed and bounded; and code on single rows and groups that gives what these name.
//! Stands on `mz_bag` for lists of rows with counts, and on `mz_statement` for columns, comparisons and statements.
#![tactic(auto)]

mod aggregate;
mod command;
mod condition;
mod groups;
mod item;
mod leaves;
mod limits;
mod made;
mod pairs;
mod places;
mod plan;
mod resolved;
mod scope;
mod spine;
mod tables;
mod value;

pub use aggregate::{Aggregate, Aggregates};
pub use command::{Answer, Command, PendingPeek, Place};
pub use condition::{Cond, Operand};
pub use groups::{aggregate_of, number_at, row_of_group};
pub use item::{CatalogItems, Item, ItemKind};
pub use limits::{MOST_ROWS, MOST_TABLES};
pub use made::{MadePlans, are_newest_first};
pub use pairs::{appended, are_joined, has_key, product};
pub use places::{Pairs, Places};
pub use plan::Plan;
pub use resolved::Resolved;
pub use scope::Scope;
pub use tables::TableBags;
pub use value::{cells, compare, value_at, value_or};
