//! The tests of peeks, feeds and packets: what no clause says of them.
//! Promises nothing by code, and has none: tests apart from a crate let a gate prove it once.
//! Stands on `mz_peeks`, `mz_protocol` and what these stand on.
#![tactic(auto)]

#[cfg(test)]
mod messages;
#[cfg(test)]
mod peeks;
