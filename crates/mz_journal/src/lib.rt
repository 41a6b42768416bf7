//! The journal: the calls of all sessions with their replies, and their history.
//! Promises each reply at its call, and that the history is the calls sorted by time (`specs/Journal.antt`, `specs/History.antt`).
//! Stands on `mz_log` for calls and replies, on `mz_time`, and on what these hold: `mz_bag`, `mz_refusal`, `mz_value`.
#![tactic(auto)]

mod copies;
mod fault;
mod journal;
pub mod laws;
mod slots;

pub use fault::JournalFault;
pub use journal::{CallEntries, Journal, MOST_CALLS};
