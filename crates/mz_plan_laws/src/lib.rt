//! The laws of what plans mean: each is the contract of a function that does nothing.
//! Promises what holds of all plans over all rows, by the definitions of `mz_plan` and a few words of its own (`specs/Alike.antt`).
//! Stands on `mz_plan` for the definitions, and on `mz_bag`, `mz_statement` and `mz_value` for theirs.
#![tactic(auto)]

mod indexes;
pub mod laws;
mod leaves;
mod masses;
mod signs;
mod types;

pub use indexes::{indexes_are_their_plans, indexes_change_no_rows};
pub use leaves::{only_named_leaves_count, renamed_plans};
pub use masses::{lightest_lists, loads_of_joins, masses_of_plans};
pub use signs::{counts_are_not_negative, joins_count_products};
pub use types::{
    rows_have_types, rows_of_literals, small_typed_plans_are_bounded, types_of_the_scope,
};
