//! The statements of SQL, as trees: what a parser gives, a printer writes and a planner reads.
//! Promises that a condition is in normal form (`specs/Test.antt`), that a query has a select, and
//! says which statements the grammar can spell (`IsStatement` of `specs/Statement.antt`).
//! Stands on `mz_value` for names, values and rows, and on the kit's `sqlite_items` for trees.
#![tactic(auto)]

mod column;
mod condition;
mod item;
mod limits;
mod query;
mod reference;
mod statement;
mod word;

pub use column::{Column, ColumnType, Columns};
pub use condition::{Condition, Op, Side, Test};
pub use item::{Expression, SelectItem, SelectItems};
pub use limits::{GREATEST_DEPTH, LAGS, LONGEST_TEXT, TIMES};
pub use query::{Query, Select};
pub use reference::{ColumnName, ColumnNames, ColumnPair, ColumnPairs, Join, Joins, Reference};
pub use statement::{Keep, Kind, Statement};
pub use word::is_reserved;
