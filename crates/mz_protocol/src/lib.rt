//! What replicas are told and what they answer: feeds, packets, and the lists in them.
//! Promises that a copy of any of these is equal to it.
//! Stands on `mz_plan` and `mz_updates` for the members; replicas and the coordinator stand on it.
#![tactic(auto)]

mod feed;
mod lists;
mod packet;

pub use feed::Feed;
pub use lists::{Answers, Batches, Commands, Frontiers, Member, copied};
pub use packet::Packet;
