//! The laws of resolution: what every statement asks for, whatever its scope.
//! Promises each law on a function with an empty body, by the definitions of `mz_resolution` and a few words of its own (`specs/`).
//! Stands on `mz_resolution` and `mz_plan` for the definitions, on `mz_plan_laws`, and on `mz_statement` and `mz_value` for words.
#![tactic(auto)]

mod laws;

pub use laws::{
    a_view_is_its_star, changes_fit_their_tables, clusters_change_plans_alone,
    indexes_of_other_clusters_change_nothing, items_tell_all, plans_are_of_the_scope,
    plans_are_well_formed, plans_have_types, plans_name_older_items, plans_read_few_tables,
    resolved_plans_are_bounded, soundness_is_kept, soundness_over_plans_is_kept, types_are_kept,
};
