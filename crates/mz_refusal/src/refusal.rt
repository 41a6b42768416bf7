//! Why a call is refused, with the number and the text of each cause.
ghost use Rattle.std.specs.Prelude.{◌≡◌, Some, IfOk};
ghost use Rattle.mz_refusal.specs.Refusal.{refusal_number, refusal_text, limited_text};

use mz_time::Time;
use mz_value::{Name, Text};
use std::alloc::{AllocError, Global};
use std::fmt;
use thiserror::Error;

/// What there may be only so many of.
#[derive(Clone, Copy, Debug)]
pub enum Limited {
    /// The columns of a table, a view or a result.
    Columns,
    /// The items of the catalog.
    Items,
    /// The sessions that were opened.
    Sessions,
    /// The replicas that were added.
    Replicas,
    /// The calls of all sessions.
    Calls,
    /// The numbered feeds of a script.
    Feeds,
    /// The clusters.
    Clusters,
}

impl fmt::Display for Limited {
    ghost output = { λ w. Some (limited_text w) };

    fn fmt<W: fmt::Write>(&self, f: &mut fmt::Formatter<W>) -> fmt::Result {
        match self {
            Limited::Columns => f.write_str("columns"),
            Limited::Items => f.write_str("items"),
            Limited::Sessions => f.write_str("sessions"),
            Limited::Replicas => f.write_str("replicas"),
            Limited::Calls => f.write_str("calls"),
            Limited::Feeds => f.write_str("feeds"),
            Limited::Clusters => f.write_str("clusters"),
        }
    }
}

/// Why a call is refused. It is written as the text that stands behind its number.
#[derive(Debug, Drop, Error)]
pub enum Refusal {
    /// The token at this place can't go on a statement.
    Syntax { at: u64 },
    /// No item has this name.
    UnknownName { name: Name },
    /// No column of exactly one reference has this name.
    UnknownColumn { name: Text },
    /// The name has a bearer already.
    NameTaken { name: Name },
    /// What has this name is of another kind or type than it is used as.
    WrongType { name: Text },
    /// The literal at this place is out of its range.
    LiteralRange { at: u64 },
    /// The query reads this many tables, its views expanded.
    TooManyLeaves { has: u64 },
    /// This item depends on the one that was to go.
    HasDependents { name: Name },
    /// The table has this many rows, and as many were to be added.
    TableFull { has: u64, adds: u64 },
    /// This call of the session has no reply yet.
    Busy { call: u64 },
    /// The time asked for is before the one that the session has seen.
    BeforeSession { asked: Time, seen: Time },
    /// The time asked for is before the time from which what is read can be read.
    BeforeSince { asked: Time, since: Time },
    /// The time asked for is after the read time.
    AfterRead { asked: Time, read: Time },
    /// The catalog has changed since the time asked for.
    CatalogMoved { ddl: Time, asked: Time },
    /// The session is in a transaction, in which this can't be done.
    InTransaction,
    /// The session is in no transaction.
    NoTransaction,
    /// There would be more of these than may be.
    TooMany { what: Limited, limit: u64 },
    /// No time is left for a round.
    TimeSpent { last: Time },
    /// The session is closed.
    Closed,
    /// The hold stands at a later time than the one asked for.
    BelowHold { at: Time, asked: Time },
}

impl fmt::Display for Refusal {
    ghost output = { λ r. Some (refusal_text r) };

    fn fmt<W: fmt::Write>(&self, f: &mut fmt::Formatter<W>) -> fmt::Result {
        match self {
            Refusal::Syntax { at } => write!(f, ": at {at}"),
            Refusal::UnknownName { name } => write!(f, ": {name}"),
            Refusal::UnknownColumn { name } => write!(f, ": {name}"),
            Refusal::NameTaken { name } => write!(f, ": {name}"),
            Refusal::WrongType { name } => write!(f, ": {name}"),
            Refusal::LiteralRange { at } => write!(f, ": at {at}"),
            Refusal::TooManyLeaves { has } => write!(f, ": has {has}"),
            Refusal::HasDependents { name } => write!(f, ": {name}"),
            Refusal::TableFull { has, adds } => write!(f, ": has {has}, adds {adds}"),
            Refusal::Busy { call } => write!(f, ": call {call}"),
            Refusal::BeforeSession { asked, seen } => write!(f, ": asked {asked}, seen {seen}"),
            Refusal::BeforeSince { asked, since } => write!(f, ": asked {asked}, since {since}"),
            Refusal::AfterRead { asked, read } => write!(f, ": asked {asked}, read {read}"),
            Refusal::CatalogMoved { ddl, asked } => write!(f, ": ddl {ddl}, asked {asked}"),
            Refusal::InTransaction => f.write_str(": in transaction"),
            Refusal::NoTransaction => f.write_str(": no transaction"),
            Refusal::TooMany { what, limit } => write!(f, ": {what} {limit}"),
            Refusal::TimeSpent { last } => write!(f, ": last {last}"),
            Refusal::Closed => f.write_str(": closed"),
            Refusal::BelowHold { at, asked } => write!(f, ": at {at}, asked {asked}"),
        }
    }
}

impl Refusal {
    /// The number of the cause. Takes no memory.
    pub fn number(&self) -> u64
        ensures { result ≡ refusal_number self.now }
    {
        match self {
            Refusal::Syntax { .. } => 1,
            Refusal::UnknownName { .. } => 2,
            Refusal::UnknownColumn { .. } => 3,
            Refusal::NameTaken { .. } => 4,
            Refusal::WrongType { .. } => 5,
            Refusal::LiteralRange { .. } => 6,
            Refusal::TooManyLeaves { .. } => 7,
            Refusal::HasDependents { .. } => 8,
            Refusal::TableFull { .. } => 9,
            Refusal::Busy { .. } => 10,
            Refusal::BeforeSession { .. } => 11,
            Refusal::BeforeSince { .. } => 12,
            Refusal::AfterRead { .. } => 13,
            Refusal::CatalogMoved { .. } => 14,
            Refusal::InTransaction => 15,
            Refusal::NoTransaction => 16,
            Refusal::TooMany { .. } => 17,
            Refusal::TimeSpent { .. } => 18,
            Refusal::Closed => 19,
            Refusal::BelowHold { .. } => 20,
        }
    }

    /// A copy of the refusal. Only a name or a text takes memory.
    pub fn try_copy(&self, alloc: Global) -> Result<Refusal, AllocError>
        ensures { IfOk result (λ copy. copy ≡ self.now) }
    {
        Ok(match self {
            Refusal::Syntax { at } => Refusal::Syntax { at: *at },
            Refusal::UnknownName { name } => Refusal::UnknownName {
                name: name.try_copy(alloc)?,
            },
            Refusal::UnknownColumn { name } => Refusal::UnknownColumn {
                name: name.try_copy(alloc)?,
            },
            Refusal::NameTaken { name } => Refusal::NameTaken {
                name: name.try_copy(alloc)?,
            },
            Refusal::WrongType { name } => Refusal::WrongType {
                name: name.try_copy(alloc)?,
            },
            Refusal::LiteralRange { at } => Refusal::LiteralRange { at: *at },
            Refusal::TooManyLeaves { has } => Refusal::TooManyLeaves { has: *has },
            Refusal::HasDependents { name } => Refusal::HasDependents {
                name: name.try_copy(alloc)?,
            },
            Refusal::TableFull { has, adds } => Refusal::TableFull {
                has: *has,
                adds: *adds,
            },
            Refusal::Busy { call } => Refusal::Busy { call: *call },
            Refusal::BeforeSession { asked, seen } => Refusal::BeforeSession {
                asked: *asked,
                seen: *seen,
            },
            Refusal::BeforeSince { asked, since } => Refusal::BeforeSince {
                asked: *asked,
                since: *since,
            },
            Refusal::AfterRead { asked, read } => Refusal::AfterRead {
                asked: *asked,
                read: *read,
            },
            Refusal::CatalogMoved { ddl, asked } => Refusal::CatalogMoved {
                ddl: *ddl,
                asked: *asked,
            },
            Refusal::InTransaction => Refusal::InTransaction,
            Refusal::NoTransaction => Refusal::NoTransaction,
            Refusal::TooMany { what, limit } => Refusal::TooMany {
                what: *what,
                limit: *limit,
            },
            Refusal::TimeSpent { last } => Refusal::TimeSpent { last: *last },
            Refusal::Closed => Refusal::Closed,
            Refusal::BelowHold { at, asked } => Refusal::BelowHold {
                at: *at,
                asked: *asked,
            },
        })
    }
}
