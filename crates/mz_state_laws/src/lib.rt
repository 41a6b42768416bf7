//! The laws of the sequential object: what holds of its state whatever statements come.
//! Promises each law on a function with an empty body, by the definitions of `mz_log` and a few
//! words of its own (`specs/`).
//! Stands on `mz_log` for the definitions, and on `mz_resolve_laws`, `mz_plan_laws` and `mz_bag`
//! for what holds of resolution, plans and bags; what speaks of whole logs stands on it.
#![tactic(auto)]

mod changes;
mod growth;
mod kinds;
mod plans;
mod well;

pub use changes::{changes_fit_the_state, changes_lead_on};
pub use growth::{items_stay, other_tables_stay, states_continue, what_is_gone_stays_so};
pub use kinds::{kinds_tell_what_is_asked, queries_change_nothing, refusals_change_nothing};
pub use plans::{
    dropped_tables_change_nothing, evaluations_are_bounded, formed_plans_are_bounded,
    indexes_may_be_evaluated, plans_are_well_formed, plans_may_be_evaluated, queries_are_told_rows,
    tables_read_are_there,
};
pub use well::{carrying_out_keeps_it, opening_is_well, tables_have_their_rows, types_stay};
