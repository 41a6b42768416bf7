//! Rows by key: each row under its values at some places, with its count.
//! Promises what is kept of each key after rows have come and gone (`specs/Keyed.antt`).
//! Stands on `mz_bag` and on the keys of `mz_plan`; joins and groups stand on it.
#![tactic(auto)]

mod keyed;
pub mod laws;

pub use keyed::KeyedRows;
