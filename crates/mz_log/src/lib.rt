//! The log of a coordinator: the alphabet of what happens, replies, and the members of the books that a log determines.
//! Promises nothing by code: its types are those in which definitions and contracts speak of logs (`specs/Log.antt`), and of
//! what one thread does with one statement after another (`specs/CarriedOut.antt`).
//! Stands on `mz_resolution` and what that stands on, and on `mz_time`; what speaks of whole logs stands on it.
#![tactic(auto)]

mod entry;
mod journal;
mod reply;
mod stream;

pub use entry::{Entry, Replied};
pub use journal::CallEntry;
pub use reply::{FrontierRow, FrontierRows, Reply, SeqReply};
pub use stream::{Commands, Report, Stream};
