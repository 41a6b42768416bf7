//! Updates: rows that change at times, and what they contain at a time.
//! Promises that compaction keeps the contents from a time on, and consolidation at every time (`specs/Contents.antt`).
//! Stands on `mz_bag`, `mz_time` and `mz_value`; tables, arrangements, operators and batches stand on it.
#![tactic(auto)]

mod batch;
pub mod laws;
mod merging;
mod update;
mod updates;

pub use batch::Batch;
pub use update::Update;
pub use updates::{Updates, between};
