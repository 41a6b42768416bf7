//! Operators that turn changes of their sides into changes of what they make of them: filters,
//! projections, unions, joins.
//! Promises the operator law (`specs/Step.antt`): at each time the output is what the meaning has
//! more than before.
//! Stands on `mz_keyed` for what a join keeps, on `mz_updates`, and on what plans mean; dataflows
//! stand on it.
#![tactic(auto)]

mod changing;
mod filter;
mod join;
pub mod laws;
mod moments;
mod operator;
mod pairing;
mod project;
mod timed;
mod union;

pub use changing::Changing;
pub use filter::{Filter, FilterOp};
pub use join::{Join, JoinOp};
pub use operator::Operator;
pub use project::{Project, ProjectOp};
pub use timed::Timed;
pub use union::{Union, UnionOp};
