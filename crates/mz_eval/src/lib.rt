//! The rows of a plan over tables, plain and slow, and its columns.
//! Promises that `eval` gives the bag of the plan's meaning, that `is_bounded` says exactly where it may be asked for it, and that
//! `typed` gives the plan's columns.
//! Stands on `mz_plan` for plans and their meaning, on `mz_plan_laws` for what keeps masses within the bound, and on `mz_bag`.
#![tactic(auto)]

mod bounded;
mod evaluation;
mod nodes;
mod rows;
mod typing;

pub use evaluation::{eval, is_bounded};
pub use typing::typed;
