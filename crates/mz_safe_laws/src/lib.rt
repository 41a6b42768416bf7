//! The laws of what is safe: what every legal log keeps of sinces, streams and reports.
//! Promises each law on a function with an empty body, by the definitions of `mz_books`.
//! Stands on `mz_call_laws`, `mz_laws`, `mz_log`, `mz_rules` and the crates in whose words they
//! speak.
#![tactic(auto)]

mod safety;

pub use safety::{
    held_times_stand, legal_logs_are_safe, reports_are_honest, sinces_are_in_range, sinces_rise,
};
