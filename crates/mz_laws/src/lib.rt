//! The laws of logs: what every legal log keeps, whatever wrote it.
//! Promises each law on a function with an empty body, by the definitions of `mz_books`.
//! Stands on `mz_books` and the crates in whose words entries speak.
#![tactic(auto)]

mod answers;
mod examples;

pub use answers::answers_may_follow;
pub use examples::{worked_examples, worked_lines};
