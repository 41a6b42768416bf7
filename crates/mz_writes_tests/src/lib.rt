//! The tests of oracles, rounds and journals: what no clause says of them.
//! Promises nothing by code, and has none. The tests stand apart from the crates that they try, so that a gate proves those once.
//! Stands on `mz_oracle`, `mz_journal` and what these stand on.
#![tactic(auto)]

#[cfg(test)]
mod journal;
#[cfg(test)]
mod oracle;
