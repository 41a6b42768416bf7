//! The grammar of the SQL dialect: its keys and tokens, and which tokens spell a statement.
//! Promises what the tokens of a text stand for (`specs/Token.antt`); the grammar itself is a relation
//! (`specs/Grammar.antt`), on which the parser and the printer stand, and so is the fault of a text that spells
//! nothing (`specs/Faults.antt`), and what a text asks for (`specs/Asked.antt`).
//! Stands on `mz_lex` for tokens, on `mz_statement` and `mz_value` for what they spell, and on `thiserror`.
#![tactic(auto)]

mod asked;
mod fault;
mod key;
pub mod laws;
mod scan;
mod token;

pub use asked::Asked;
pub use fault::ParseFault;
pub use key::{Key, same, spelling};
pub use scan::toks;
pub use token::{Digits, Quote, Tok, Word, after};
