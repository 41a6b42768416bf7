//! Operators that turn changes of rows into changes of their groups, and of their distinct rows.
//! Promises the operator law of `mz_ops` for what plans mean by them (`specs/Grouping.antt`,
//! `specs/Counting.antt`).
//! Stands on `mz_ops` for the law and for time, and on `mz_keyed` for the rows of groups; dataflows
//! stand on it.
#![tactic(auto)]

mod distinct;
mod group;
pub mod laws;
mod orders;
mod showing;
mod totals;

pub use distinct::{Distinct, DistinctOp};
pub use group::{Group, GroupOp};
