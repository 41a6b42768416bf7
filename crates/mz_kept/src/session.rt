//! Sessions as they are kept.

/// A session: how many calls it has made, and the one that has no reply yet.
#[derive(Clone, Copy, Debug)]
pub struct Session {
    /// How many calls it has made.
    pub calls: u64,
    /// The number of the call that has no reply yet.
    pub outstanding: Option<u64>,
}
