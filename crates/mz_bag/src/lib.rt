//! Bags of rows, and weighted lists.
//! Promises that a bag is the map of its nonzero counts (`specs/Bag.antt`, `specs/Weighted.antt`).
//! Stands on `mz_value` and the kit's `indexmap`; every crate that counts rows stands on it.
#![tactic(auto)]

mod bag;
pub mod laws;

pub use bag::{Bag, CountedRows, MOST_COUNT};
