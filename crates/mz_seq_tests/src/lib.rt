//! The tests of the sequential object: what no clause says of it.
//! Promises nothing by code, and has none. The tests stand apart from the crate that they try, so that a gate proves it once.
//! Stands on `mz_seq` and what that stands on.
#![tactic(auto)]

#[cfg(test)]
mod parts;
#[cfg(test)]
mod sequence;
