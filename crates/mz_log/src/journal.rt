//! A call as a journal stores it.

use crate::Reply;
use mz_time::Time;
use mz_value::Text;

/// A call of a session, with its reply where it has one.
#[derive(Drop)]
pub struct CallEntry {
    /// The number of the session.
    pub session: u64,
    /// The number of the call in its session.
    pub call: u64,
    /// The time of the call: that at which it reads or takes effect; until it is known, the greatest of its session's calls before it.
    pub time: Time,
    /// What the session said.
    pub text: Text,
    /// What the call was told. None while it waits.
    pub reply: Option<Reply>,
}
