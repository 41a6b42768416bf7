//! Read holds: who may still read a collection, and from which time on; and what a policy keeps of its past.
//! Promises the live holds as the log has them, their counts and least (`specs/HoldBook.antt`), and the value of a policy.
//! Stands on `mz_counted` and on the rules of `mz_rules`; `mz_collections` stands on it.
#![tactic(auto)]

mod counts;
mod fault;
mod hold_table;
mod numbered;
mod policy;

pub use fault::BelowHold;
pub use hold_table::{HoldTable, MOST_HOLDS};
pub use policy::{Policy, kept_time};
