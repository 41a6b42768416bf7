//! The laws of events: what an entry calls for may follow it, the whole event is legal, and a good log stays good.
//! Promises each law on a function with an empty body, by the definitions of `mz_books`.
//! Stands on `mz_safe_laws`, `mz_replay_laws`, `mz_call_laws`, `mz_rules` and the crates in whose words they speak.
#![tactic(auto)]

mod events;
mod good;

pub use events::{events_are_legal, owed_may_follow};
pub use good::{good_logs_stay_good, legal_logs_are_good, the_empty_log_is_good};
