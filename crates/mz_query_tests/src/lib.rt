//! The tests of refusals, plans, catalogs and the evaluator: what no clause says of them.
//! Promises nothing by code, and has none. The tests stand apart from the crates that they try, so that a gate proves those once.
//! Stands on `mz_refusal`, `mz_plan`, `mz_eval`, `mz_catalog` and what these stand on.
#![tactic(auto)]

#[cfg(test)]
mod catalogs;
#[cfg(test)]
mod evaluation;
#[cfg(test)]
mod plans;
#[cfg(test)]
mod refusals;
