//! Collections with their sinces: from which time on each may still be read, and who keeps it so.
//! Promises each since as the rule has it, the least of all that keeps its collection readable (`specs/CollectionBook.antt`).
//! Stands on `mz_holds` and on the rules of `mz_rules`; the coordinator stands on it.
#![tactic(auto)]

mod collections;
mod moves;
mod new_collection;
mod peeks;
mod places;
mod sinces;

pub use collections::Collections;
pub use new_collection::NewCollection;
