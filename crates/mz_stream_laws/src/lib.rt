//! The laws of streams: what each incarnation of a replica is asked and told in every legal log, and what its packets answer.
//! Promises each law on a function with an empty body, by the definitions of `mz_books` and a few words of its own (`specs/`).
//! Stands on `mz_safe_laws`, `mz_replay_laws`, `mz_call_laws`, `mz_rules` and the crates in whose words they speak.
#![tactic(auto)]

mod feeds;
mod packets;
mod peeks;

pub use feeds::{a_packet_may_be_absorbed_later, feeds_reach_the_tables, streams_only_grow};
pub use packets::true_packets_have_the_rows_that_peeks_wait_for;
pub use peeks::{
    each_live_stream_asks_each_pending_peek, each_pending_peek_is_kept_in_its_cluster,
    packets_answer_what_has_come, packets_past_the_read_time_answer_all,
};
