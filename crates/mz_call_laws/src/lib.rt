//! The laws of calls and sessions: what the log of any coordinator keeps of them.
//! Promises each law on a function with an empty body, by the definitions of `mz_books` and a few words of its own (`specs/`).
//! Stands on `mz_books` and the crates in whose words its entries speak.
#![tactic(auto)]

mod order;
mod progress;
mod real_time;
mod sessions;
mod waiting;

pub use order::{history_is_sorted, sorted_is_history};
pub use progress::{read_time_rises, reads_are_fresh, reads_are_in_range};
pub use real_time::{
    calls_are_placed, history_keeps_real_time, reads_keep_their_times, replies_stay,
};
pub use sessions::{
    calls_are_in_order, calls_are_told_apart, calls_follow_one_another, last_calls_are_seen,
    one_call_waits,
};
pub use waiting::{pending_calls_wait, queued_calls_wait, rounds_reply_to_commands};
