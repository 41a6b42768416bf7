//! The printer of the SQL dialect: a statement is written in one way, and read again as itself.
//! Promises the text of `specs/Print.antt`, and that it spells the statement.
//! Stands on `mz_grammar` for keys and the grammar, on `mz_lex` for how tokens are written, and on
//! `mz_statement` and `mz_value` for statements.
#![tactic(auto)]

mod condition;
mod list;
mod name;
mod printer;
mod quote;
mod select;
mod statement;
mod value;
mod word;
mod writer;

pub use printer::print;
pub use quote::push_quoted;
pub use word::{Edge, Unreserved};
