//! Arrangements: rows with their history, read at a time, whole or by a key.
//! Promises what they contain at each time from the since on (`specs/Arranged.antt`).
//! Stands on `mz_updates`; a dataflow keeps its output in one.
#![tactic(auto)]

mod arrangement;
mod keeping;
mod ordered;
mod seeking;

pub use arrangement::Arrangement;
