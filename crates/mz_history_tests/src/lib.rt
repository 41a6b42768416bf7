//! The tests of streams: what no clause says of them.
//! Promises nothing by code, and has none. The tests stand apart from the crate that they try, so that a gate proves it once.
//! Stands on `mz_history` and what it stands on.
#![tactic(auto)]

#[cfg(test)]
mod history;
