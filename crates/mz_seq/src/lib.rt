//! The sequential object in code: commands carried out one after another, in rounds that can be given up.
//! Promises that states, replies and changes are those of the definition (`specs` of `mz_log`), and that what is marked can be gone back to.
//! Stands on `mz_catalog` for items, on `mz_bag` for changes, and on `mz_log` for what it is held to.
#![tactic(auto)]

mod bags;
mod change;
mod commands;
mod counts;
mod items;
pub mod laws;
mod marked_catalog;
mod seq;
mod table_rows;
mod tables;

pub use commands::{delete, insert};
pub use items::{make, remove};
pub use seq::Seq;
pub use table_rows::TableRows;
pub use tables::Table;
