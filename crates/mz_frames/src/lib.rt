//! The laws of frames: what each event changes of what a log determines, and what it leaves.
//! Promises each law on a function with an empty body, as an equation from the longer log's books to the shorter's.
//! Stands on `mz_books`, `mz_call_laws`, `mz_replay_laws` and the crates in whose words they speak.
#![tactic(auto)]

mod calls;
mod reads;
mod rounds;
mod sessions;
mod spent;
mod turns;

pub use calls::{a_call_is_refused, a_command_is_queued, a_read_is_made};
pub use reads::{a_new_peek_has_the_rows_of_its_plan, peeks_keep_their_rows};
pub use rounds::{a_round_is_applied, the_queue_is_refused};
pub use sessions::unopened_sessions_have_nothing;
pub use spent::{
    a_refused_queue_leaves_reads, a_refused_queue_leaves_rounds, a_refused_queue_leaves_sessions,
};
pub use turns::{a_turn_is_made, a_turn_leaves_rounds, a_turn_leaves_sessions};
