//! The laws of the states of a log, of its reads, and of its replay.
//! Promises each law on a function with an empty body, by the definitions of `mz_books` and a few words
//! of its own (`specs/`).
//! Stands on `mz_books` for the definitions, on `mz_state_laws` for what holds of one state, and on
//! `mz_call_laws` for what holds of calls.
#![tactic(auto)]

mod reads;
mod replay;
mod states;

pub use reads::{peeks_wait_for_their_rows, reads_have_their_plans};
pub use replay::{legal_replays, reads_have_their_rows, states_are_replayed};
pub use states::{items_stay_from_ddl, states_are_well, tables_stay};
