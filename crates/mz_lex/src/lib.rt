//! The lexer of the SQL dialect: a text is cut into words, numbers, quoted texts and signs.
//! Promises the one cut of a text, or its first fault (`specs/Cut.antt`, `specs/Fault.antt`).
//! Stands on `thiserror`; the parser stands on it.
#![tactic(auto)]

mod fault;
pub mod laws;
mod lexer;
mod scan;
mod token;
mod value;

pub use fault::LexFault;
pub use lexer::tokens;
pub use token::{Token, TokenKind, Tokens};
pub use value::{lowered, unquoted};
