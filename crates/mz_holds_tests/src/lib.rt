//! The tests of counted times, holds, policies and collections: what no clause says of them.
//! Promises nothing by code, and has none. The tests stand apart from the crates that they try, so that a gate proves those once.
//! Stands on `mz_counted`, `mz_holds`, `mz_collections` and what these stand on.
#![tactic(auto)]

#[cfg(test)]
mod collections;
#[cfg(test)]
mod counted;
#[cfg(test)]
mod holds;
