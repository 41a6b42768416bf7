//! The tests of operators: what no clause says of them.
//! Promises nothing by code, and has none. The tests stand apart from the crates that they try, so that a gate proves those once.
//! Stands on `mz_ops`, `mz_eval` and what these stand on.
#![tactic(auto)]

#[cfg(test)]
mod any;
#[cfg(test)]
mod random;
#[cfg(test)]
mod texts;
#[cfg(test)]
mod told;
#[cfg(test)]
mod worked;
