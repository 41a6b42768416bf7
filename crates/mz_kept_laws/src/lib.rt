//! The laws of what a plain core keeps: what each call makes of it is that of the log that the call leaves.
//! Promises each law on a function with an empty body, by the definitions of `mz_kept`.
//! Stands on `mz_script_laws`, `mz_frames`, `mz_event_laws`, `mz_replay_laws` and the crates in whose words logs speak.
#![tactic(auto)]

mod calls;
mod rounds;

pub use calls::{
    calls_are_taken, nothing_stands_for_the_empty_log, sessions_are_opened,
    some_calls_are_not_made, waiting_rows_stay,
};
pub use rounds::{reads_are_finished, rounds_are_applied, rounds_are_begun};
