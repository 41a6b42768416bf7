//! The tests of dataflows: what no clause says of them.
//! Promises nothing by code, and has none. The tests stand apart from the crate that they try, so that a gate proves it once.
//! Stands on `mz_dataflow`, `mz_eval` and what these stand on.
#![tactic(auto)]

#[cfg(test)]
mod bounds;
#[cfg(test)]
mod plans;
#[cfg(test)]
mod random;
#[cfg(test)]
mod texts;
#[cfg(test)]
mod told;
#[cfg(test)]
mod worked;
