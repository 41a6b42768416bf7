//! The entries of a log. Definitions speak of them; no code keeps a log.

use crate::SeqReply;
use mz_bag::CountedRows;
use mz_refusal::Refusal;
use mz_statement::Statement;
use mz_time::Time;
use mz_value::{Name, Text};
use std::collections::LinkedList;

/// A command of a round with the round's reply.
#[derive(Drop)]
pub struct Replied {
    /// The number of the session, counted from 1 in order of opening.
    pub session: u64,
    /// The number of the call in its session, counted from 1.
    pub call: u64,
    /// What the call asked for.
    pub statement: Statement,
    /// What the round replied.
    pub reply: SeqReply,
}

/// One entry of a log: a thing that happened. No value of it is ever made: it is the alphabet in which the definitions are written.
/// Sessions, rounds, peeks, collections and holds are numbered from 1, each in the order in which they were made; clusters from 0,
/// which is `main`; the calls of a session and the incarnations of a replica from 1.
#[derive(Drop)]
pub enum Entry {
    /// A session of this name was opened.
    Opened {
        /// The name, under which no session was opened before.
        name: Name,
    },
    /// A command was submitted and waits for a round.
    Queue {
        /// The number of the session.
        session: u64,
        /// The number of the call in its session.
        call: u64,
        /// The command.
        statement: Statement,
    },
    /// A round took the commands that waited, and has this time.
    Begin {
        /// The number of the round.
        round: u64,
        /// The time of the round, at which its commands take effect.
        time: Time,
    },
    /// The open round was applied at its time.
    Apply {
        /// The time of the round.
        time: Time,
        /// Its commands in the order in which they were queued, each with its reply.
        replies: LinkedList<Replied>,
    },
    /// A query was submitted, and its peek waits for rows.
    Read {
        /// The number of the session.
        session: u64,
        /// The number of the call in its session.
        call: u64,
        /// The number of the peek.
        peek: u64,
        /// The time at which it reads.
        time: Time,
        /// The query.
        statement: Statement,
        /// The collection that it reads: that of an index, or the next one, which is made for this peek.
        collection: u64,
    },
    /// A peek got its rows.
    Finish {
        /// The number of the peek.
        peek: u64,
        /// The rows with their counts, in order of values.
        rows: CountedRows,
    },
    /// A call was refused as it was submitted, or a command that waited because no time is left for a round.
    Refused {
        /// The number of the session.
        session: u64,
        /// The number of the call in its session.
        call: u64,
        /// What the session said.
        text: Text,
        /// Why it is refused.
        refusal: Refusal,
    },
    /// A statement was carried out as it was submitted: BEGIN, COMMIT, RETAIN, SHOW FRONTIERS or a SET.
    Instant {
        /// The number of the session.
        session: u64,
        /// The number of the call in its session.
        call: u64,
        /// The statement.
        statement: Statement,
        /// The time that it has.
        time: Time,
    },
    /// A call without a reply was ended. It gets none of its rows, and changes nothing.
    Cancel {
        /// The number of the session.
        session: u64,
        /// The number of the call in its session.
        call: u64,
    },
    /// A session was closed, each of whose calls has its reply.
    Close {
        /// The number of the session.
        session: u64,
    },
    /// A hold was taken: the collection stays readable at this time.
    Acquire {
        /// The number of the hold.
        hold: u64,
        /// The number of the collection.
        collection: u64,
        /// The time of the hold.
        time: Time,
    },
    /// A hold was moved to a time that is no earlier.
    Down {
        /// The number of the hold.
        hold: u64,
        /// Its new time.
        time: Time,
    },
    /// A hold was given back.
    Release {
        /// The number of the hold.
        hold: u64,
    },
    /// A feed was made for a replica: what its stream has beyond a standing of it, and the changes of tables.
    Fed {
        /// The name of the replica.
        replica: Name,
        /// The number of its joining.
        incarnation: u64,
        /// How many lines of its stream it has, once it took the feed.
        taken: u64,
        /// The time up to which the feed has the changes of tables.
        to: Time,
    },
    /// A packet of a replica was absorbed: how far it has come, and its answers.
    Absorbed {
        /// The name of the replica.
        replica: Name,
        /// The number of its joining.
        incarnation: u64,
        /// How many turns it had made since it joined.
        turn: u64,
        /// How many lines of its stream it had taken.
        taken: u64,
        /// The first time for which it had no contents of tables.
        ready: u64,
        /// The upper that it had reached for each collection that it keeps.
        frontiers: LinkedList<(u64, Time)>,
    },
    /// A replica joined, for the first time or again.
    Join {
        /// The name of the replica.
        replica: Name,
        /// How often it has joined, this time counted.
        incarnation: u64,
        /// The cluster that it belongs to, the same at each joining.
        cluster: u64,
    },
    /// A replica was lost, with all that it kept.
    Crash {
        /// The name of the replica.
        replica: Name,
    },
    /// A cluster was added. Its number is its position among those that were added.
    Cluster {
        /// The name, which is not `main` and which no cluster had before.
        name: Name,
    },
}
