//! The tests of SQL: tokens, statements, their texts and their faults, worked by hand.
//! Promises nothing by code, and has none. The tests stand apart from the crates that they try, so that a gate proves those once.
//! Stands on `mz_lex`, `mz_statement`, `mz_grammar`, `mz_parse`, `mz_print`, `mz_sql` and `mz_value`.
#![tactic(auto)]

#[cfg(test)]
mod forms;
#[cfg(test)]
mod meanings_of_tokens;
#[cfg(test)]
mod parsing;
#[cfg(test)]
mod printing;
#[cfg(test)]
mod statements;
#[cfg(test)]
mod tokens_of_texts;
