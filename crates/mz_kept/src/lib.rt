//! What a plain core keeps, what calls make of it, and when it is that of a log, as types and definitions.
//! Promises that those who keep it and those who prove laws of it say the same (`specs/Standing.antt`).
//! Stands on `mz_books` and `mz_oracle`, in whose words logs and rounds are told.
#![tactic(auto)]

mod session;

pub use session::Session;
