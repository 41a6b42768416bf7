//! Streams: what each live replica is told, line by line, and how often each has joined.
//! Promises each stream as all lines since its joining, and the reduced list as the rule has it (`specs/StreamBook.antt`).
//! Stands on the lines of `mz_plan` and the rules of `mz_rules`; the coordinator stands on it.
#![tactic(auto)]

mod history;
mod joining;
mod joinings;
mod kept_stream;
mod lines;
mod named;
mod reducing;
mod streams;

pub use history::History;
pub use joinings::MOST_JOININGS;
pub use lines::Commands;
pub use reducing::reduce;
