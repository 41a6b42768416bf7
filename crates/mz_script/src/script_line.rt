//! What a line of a script says, and whether that is built.
ghost use Rattle.std.specs.Prelude.{◌≡◌};
ghost use Rattle.mz_script.specs.Built.{is_built, is_built_asked, is_built_kind, names_no_time};

use mz_grammar::Asked;
use mz_statement::{Kind, Statement};
use mz_time::Time;
use mz_value::{Name, Text};

/// What a line of a script says: nothing, nothing that can be read, that a session says a text which asks for something, or what is to
/// be done. Feeds, packets and holds go by their numbers, counted from 1.
#[derive(Drop)]
pub enum ScriptLine {
    /// Nothing: an empty line, or a remark.
    Skipped,
    /// Nothing that can be read.
    Unreadable,
    /// The session of this name says a text. It is opened at its first line.
    Says {
        /// The name of the session.
        name: Name,
        /// The text.
        text: Text,
        /// What the text asks for.
        asked: Asked,
    },
    /// The clock says this from now on.
    Tick(Time),
    /// A round is begun at what the clock says.
    BeginRound,
    /// The open round is applied.
    FinishRound,
    /// A round is begun, and applied where it was.
    CommitRound,
    /// The open round is applied, a round is made where a command waits, and all live replicas make two turns.
    Settle,
    /// A replica is added to a cluster.
    AddReplica {
        /// The name of the replica.
        replica: Name,
        /// The name of the cluster.
        cluster: Name,
    },
    /// The replica of this name is lost.
    CrashReplica(Name),
    /// The replica of this name joins again.
    RejoinReplica(Name),
    /// A cluster of this name is added.
    AddCluster(Name),
    /// A feed is made for a replica.
    MakeFeed {
        /// The name of the replica.
        replica: Name,
        /// The time up to which the feed goes, where one is named.
        upto: Option<Time>,
    },
    /// The replica of the feed of this number takes it.
    TakeFeed(u64),
    /// The packet of this number is absorbed.
    AbsorbPacket(u64),
    /// A hold is taken.
    TakeHold {
        /// The name of the table or index.
        name: Name,
        /// The time at which it is held.
        time: Time,
    },
    /// A hold moves on.
    MoveHold {
        /// The number of the hold.
        hold: u64,
        /// The time to which it moves.
        time: Time,
    },
    /// The hold of this number is given back.
    GiveBack(u64),
    /// The call of the session of this name is cancelled.
    CancelCall(Name),
    /// The session of this name is closed.
    CloseSession(Name),
}

// Whether statements of this kind are built.
fn is_built_kind(kind: Kind) -> bool
    ensures { result ≡ is_built_kind kind }
{
    matches!(kind, Kind::Command | Kind::Query)
}

// Whether the statement names no time at which it reads.
fn names_no_time(statement: &Statement) -> bool
    ensures { result ≡ names_no_time statement.now }
{
    !matches!(statement, Statement::Query(_, Some(_)))
}

// Whether what a session asks for is built.
fn is_built_asked(asked: &Asked) -> bool
    ensures { result ≡ is_built_asked asked.now }
{
    match asked {
        Asked::Statement(statement) => is_built_kind(statement.kind()) && names_no_time(statement),
        _ => true,
    }
}

impl ScriptLine {
    /// Whether what the line says is built. Takes no memory.
    pub fn is_built(&self) -> bool
        ensures { result ≡ is_built self.now }
    {
        match self {
            ScriptLine::Says { asked, .. } => is_built_asked(asked),
            ScriptLine::Skipped
            | ScriptLine::Unreadable
            | ScriptLine::Tick(_)
            | ScriptLine::BeginRound
            | ScriptLine::FinishRound
            | ScriptLine::CommitRound
            | ScriptLine::Settle => true,
            _ => false,
        }
    }
}
