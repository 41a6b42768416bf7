//! The plain core: a coordinator without replicas, which answers sessions by the tables of now.
//! Promises that each call does what the log that it stands for gives it (`specs/Stands.antt`; `Given.antt` of `mz_books`).
//! Stands on `mz_kept` with its laws, on `mz_oracle` for rounds, and on `mz_seq` and `mz_eval` for what statements do.
#![tactic(auto)]

mod as_core;
mod calls;
mod carry;
mod open;
mod plain;
mod reads;
mod rounds;
mod submit;

pub use plain::Plain;
