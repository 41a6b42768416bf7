//! Scripts: reads the lines of a script, has them carried out, and writes the transcript.
//! Promises by `run` that the transcript is the one that the definitions in `specs/` give, and that its log is legal and replays.
//! Stands on `mz_io` for the ends of the outside, on `mz_script` for what lines say and do, on `mz_books` and `mz_replay_laws` for logs,
//! and on `mz_value` for words.
#![tactic(auto)]

mod carrier;
mod lines;
mod script;
mod status;
mod top;
mod words;

pub use carrier::Carrier;
pub use script::{LONGEST_INPUT, run_script};
pub use status::{DONE, NO_MEMORY, REFUSED, SINK_FAILED, SOURCE_FAILED, TOO_LONG};
pub use top::run;
pub use words::Words;
