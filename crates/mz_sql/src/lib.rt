//! SQL: texts are read as statements, and statements are printed as texts.
//! Promises that each text asks for one thing, a statement or a refusal (`ask`, `laws`), and has one printed form, or is
//! refused with its fault (`normalized`).
//! Stands on `mz_parse` and `mz_print`, which it hands on, on `mz_lex` and `mz_grammar`, and on `mz_statement` and `mz_value`.
#![tactic(auto)]

mod form;
pub mod laws;
mod request;

pub use form::normalized;
pub use mz_grammar::Asked;
pub use mz_parse::{ParseFault, parse};
pub use mz_print::print;
pub use request::ask;
