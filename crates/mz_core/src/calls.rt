//! What calls of a core are answered.

use mz_bag::CountedRows;
use mz_log::SeqReply;
use mz_refusal::Refusal;
use mz_statement::Statement;
use mz_time::Time;
use mz_value::Listed;

/// A command that waits for a round.
#[derive(Debug, Drop)]
pub struct Waiting {
    /// The number of its session, counted from 1 in order of opening.
    pub session: u64,
    /// The number of the call in its session, counted from 1.
    pub call: u64,
    /// What it asks for.
    pub statement: Statement,
}

/// A read with its rows.
#[derive(Drop)]
pub struct FinishedRead {
    /// The number of its peek, counted from 1.
    pub peek: u64,
    /// The number of its session, counted from 1 in order of opening.
    pub session: u64,
    /// The number of the call in its session, counted from 1.
    pub call: u64,
    /// The time at which it looks.
    pub time: Time,
    /// The rows with their counts, in order of values.
    pub rows: CountedRows,
}

/// What became of a call.
#[derive(Drop)]
pub enum Submitted {
    /// The command of this number waits for a round.
    Queued(u64),
    /// The query of the first number waits for its rows, at this time, under the peek of the last number.
    Reading(u64, Time, u64),
    /// The call of this number is refused.
    Refused(u64, Refusal),
}

/// A round that was begun.
#[derive(Clone, Copy, Debug)]
pub struct BegunRound {
    /// Its number, counted from 1.
    pub round: u64,
    /// Its time.
    pub time: Time,
    /// How many commands it took.
    pub commands: u64,
}

/// What a round replied to a command.
#[derive(Drop)]
pub struct RoundReply {
    /// The number of the session, counted from 1 in order of opening.
    pub session: u64,
    /// The number of the call in its session, counted from 1.
    pub call: u64,
    /// What the round replied.
    pub reply: SeqReply,
}

/// A round that was applied.
#[derive(Drop)]
pub struct RoundDone {
    /// Its number, counted from 1.
    pub round: u64,
    /// Its time.
    pub time: Time,
    /// What it replied to its commands, in order.
    pub replies: Listed<RoundReply>,
}
