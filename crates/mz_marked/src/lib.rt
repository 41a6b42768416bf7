//! What can be taken back: the word in which the parts that have a mark say what they are now, and what they were at it.
//! Promises nothing by code: its one definition is in `specs/Twice.antt`.
//! Stands on std alone; rows of tables, tables, holds and collections are seen by it.
#![tactic(auto)]
