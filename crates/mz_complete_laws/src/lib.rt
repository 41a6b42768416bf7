//! The laws of completeness: what has no cause for a refusal is given, what waits is emptied, and what is given keeps logs good.
//! Promises each law on a function with an empty body, by the definitions of `mz_books` and a few words of its own (`specs/`).
//! Stands on `mz_stream_laws`, `mz_event_laws`, `mz_safe_laws`, `mz_call_laws` and the crates in whose words they speak.
#![tactic(auto)]

mod given;
mod reads;
mod settling;

pub use given::{
    feeds_keep_logs_good, holds_keep_logs_good, replicas_keep_logs_good, rounds_keep_logs_good,
    sessions_keep_logs_good,
};
pub use reads::{queries_are_read, queries_in_transactions_are_read};
pub use settling::{
    packets_past_the_read_time_leave_no_peek, refusals_empty_the_queue,
    rounds_at_once_empty_the_queue,
};
