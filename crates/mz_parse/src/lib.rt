//! The parser of the SQL dialect: a text is read as the statement that it spells.
//! Promises the one statement of a text by the grammar of `mz_grammar`, or its first fault.
//! Stands on `mz_lex` for tokens, on `mz_grammar` for what they stand for, on `mz_statement` and
//! `mz_value` for statements.
#![tactic(auto)]

mod condition;
mod fault;
pub mod laws;
mod list;
mod parser;
mod reading;
mod select;
mod statement;

pub use mz_grammar::ParseFault;
pub use parser::parse;
