//! Names and types resolved: from a statement and a catalog to what it asks for, or the first refusal.
//! Promises that `resolve` is the definition of resolution (`specs/Resolution.antt` of `mz_resolution`).
//! Stands on `mz_select` for the parts of a select, on `mz_resolution` for the definition, on `mz_catalog` for the lookups, on
//! `mz_plan` and `mz_statement` for the types.
#![tactic(auto)]

mod commands;
mod known;
mod lone;
mod lookups;
mod plans;
mod queries;
mod reached;
mod relations;
mod statements;
mod wanted;

pub use mz_select::MOST_COLUMNS;
pub use statements::resolve;
