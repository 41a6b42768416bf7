//! The tests of values, bags, updates, tables and arrangements: what no clause says of them.
//! Promises nothing by code, and has none. The tests stand apart from the crates that they try, so that a gate proves those once.
//! Stands on `mz_value`, `mz_bag`, `mz_updates`, `mz_tables` and `mz_arrange`.
#![tactic(auto)]

#[cfg(test)]
mod arrangements;
#[cfg(test)]
mod bags;
#[cfg(test)]
mod tables;
#[cfg(test)]
mod updates;
#[cfg(test)]
mod values;
