//! When things take effect: an oracle that gives rising times, and rounds that take the items that wait.
//! Promises each time by its formula, and that no item is lost or doubled (`specs/Oracle.antt`, `specs/Rounds.antt`).
//! Stands on `mz_time`, and on the kit's `sqlite_items` and `thiserror`.
#![tactic(auto)]

mod fault;
pub mod laws;
mod oracle;
mod rounds;

pub use fault::{RoundOpen, TimeSpent};
pub use oracle::{GREATEST_GIVEN, Oracle};
pub use rounds::Rounds;
