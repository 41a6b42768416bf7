//! Counted times: how many hold something at which time, and the least of these times.
//! Promises the sorted list of the times that went in and didn't come out, its least and its counts (`specs/Counted.antt`, `src/laws.rt`).
//! Stands on `mz_time`; holds stand on it.
#![tactic(auto)]

mod counted;
pub mod laws;
mod places;

pub use counted::Counted;
