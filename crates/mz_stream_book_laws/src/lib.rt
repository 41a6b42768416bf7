//! The laws of the book of streams: what a history of what replicas are told has of a log, and what each event makes of that.
//! Promises each law on a function with an empty body, in the words of `mz_history` and `mz_books` (`specs/StreamBookOf.antt`).
//! Stands on `mz_history`, `mz_books` and the crates in whose words they speak.
#![tactic(auto)]

mod books;
mod events;

pub use books::{joinings_are_counted, streams_are_found};
pub use events::{
    a_feed_is_told, a_packet_is_absorbed, a_replica_is_lost, a_replica_joins, lines_are_told,
};
