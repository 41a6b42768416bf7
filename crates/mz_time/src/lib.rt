//! Times, and frontiers: how far something has come.
//! Promises a total order of frontiers in which `Done` is last, with `meet` and `join` (`specs/Frontier.antt`, `src/laws.rt`).
//! Stands on std alone; whatever counts times stands on it.
#![tactic(auto)]

mod frontier;
pub mod laws;
#[cfg(test)]
mod tests;
mod time;

pub use frontier::Frontier;
pub use time::Time;
