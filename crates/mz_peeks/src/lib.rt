//! Pending peeks: the reads that wait for their rows.
//! Promises that they are those of the log, and that each leaves once (`specs/PeekBook.antt`).
//! Stands on `mz_plan` and on the books of `mz_books`; the coordinator keeps one table.
#![tactic(auto)]

pub mod laws;
mod numbered;
mod peek_table;

pub use peek_table::PeekTable;
