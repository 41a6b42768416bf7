//! Tables under their times: what a table was at each time from its since on.
//! Promises the contents at those times, and the batch of the definition for one who lacks a part (`specs/Table.antt`).
//! Stands on `mz_updates`; the coordinator keeps one store for each table.
#![tactic(auto)]

mod parts;
mod table_store;

pub use table_store::TableStore;
