//! The laws of scripts: what the machine of a script keeps, whatever lines it reads.
//! Promises each law on a function with an empty body, by the definitions of `mz_script` and a few words of its own (`specs/`).
//! Stands on `mz_event_laws`, `mz_stream_laws`, `mz_frames`, `mz_safe_laws`, `mz_call_laws`, `mz_laws` and the crates in whose words machines speak.
#![tactic(auto)]

mod plain;
mod rest;
mod scripts;
mod turns;

pub use plain::{plain_answers_are_simple, plain_logs_are_simple, plain_logs_grow};
pub use rest::{
    calls_keep_machines_at_rest, other_lines_keep_machines_at_rest, rounds_keep_machines_at_rest,
    settling_keeps_machines_at_rest, the_opening_is_at_rest,
};
pub use scripts::{
    each_script_leaves_a_good_log, lines_keep_machines_at_rest, scripts_leave_good_logs,
};
pub use turns::{second_turns_are_quiet, turns_answer_all};
