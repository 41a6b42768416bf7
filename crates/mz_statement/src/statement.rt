//! Statements, and what a RETAIN keeps.
ghost use Rattle.std.specs.Prelude.{◌≡◌, IfOk};
ghost use Rattle.mz_statement.specs.Kind.{kind_of};

use crate::query::copied_condition;
use crate::{Columns, Condition, Query};
use mz_value::{Name, Rows};
use std::alloc::{AllocError, Global};

/// How much of its past a relation keeps readable.
#[derive(Clone, Copy, Debug, PartialEq, Eq)]
pub enum Keep {
    /// So many times behind the newest one.
    Lag(u64),
    /// All from this time on.
    From(u64),
    /// All from the time on that is the oldest readable one now.
    Stay,
}

/// What a session may ask for.
#[derive(Debug, PartialEq, Eq, Drop)]
pub enum Statement {
    /// Asks for the rows of a query, at the time behind AS OF where one is named.
    Query(Query, Option<u64>),
    /// Makes a table with these columns.
    CreateTable(Name, Columns),
    /// Gives a query a name.
    CreateView(Name, Query),
    /// Makes an index of the first name on the relation of the second.
    CreateIndex(Name, Name),
    /// Removes a table.
    DropTable(Name),
    /// Removes a view.
    DropView(Name),
    /// Removes an index.
    DropIndex(Name),
    /// Puts rows into a table.
    Insert(Name, Rows),
    /// Takes the rows out of a table that pass the condition, or all.
    Delete(Name, Option<Condition>),
    /// Begins a transaction: BEGIN.
    Start,
    /// Ends the transaction: COMMIT.
    Commit,
    /// Asks how far each collection is readable.
    ShowFrontiers,
    /// Says how much of its past a relation keeps readable.
    Retain(Name, Keep),
    /// Says whether the session's reads and writes keep real time: true for strict.
    SetIsolation(bool),
    /// Says on which cluster the session's queries are computed.
    SetCluster(Name),
}

/// What a statement does with the session that gives it.
#[derive(Clone, Copy, Debug, PartialEq, Eq)]
pub enum Kind {
    /// Changes rows, tables, views or indexes.
    Command,
    /// Asks for rows.
    Query,
    /// BEGIN.
    Start,
    /// COMMIT.
    Commit,
    /// RETAIN.
    Retain,
    /// SHOW FRONTIERS.
    ShowFrontiers,
    /// SET, of the isolation or of the cluster.
    Set,
}

impl Statement {
    /// A copy of the statement.
    pub fn try_copy(&self, alloc: Global) -> Result<Statement, AllocError>
        ensures { IfOk result (λ copy. copy ≡ self.now) }
    {
        Ok(match self {
            Statement::Query(query, as_of) => Statement::Query(query.try_copy(alloc)?, *as_of),
            Statement::CreateTable(name, columns) => {
                Statement::CreateTable(name.try_copy(alloc)?, columns.try_copy(alloc)?)
            }
            Statement::CreateView(name, query) => {
                Statement::CreateView(name.try_copy(alloc)?, query.try_copy(alloc)?)
            }
            Statement::CreateIndex(name, on) => {
                Statement::CreateIndex(name.try_copy(alloc)?, on.try_copy(alloc)?)
            }
            Statement::DropTable(name) => Statement::DropTable(name.try_copy(alloc)?),
            Statement::DropView(name) => Statement::DropView(name.try_copy(alloc)?),
            Statement::DropIndex(name) => Statement::DropIndex(name.try_copy(alloc)?),
            Statement::Insert(name, rows) => {
                Statement::Insert(name.try_copy(alloc)?, rows.try_copy(alloc)?)
            }
            Statement::Delete(name, test) => {
                Statement::Delete(name.try_copy(alloc)?, copied_condition(alloc, test)?)
            }
            Statement::Start => Statement::Start,
            Statement::Commit => Statement::Commit,
            Statement::ShowFrontiers => Statement::ShowFrontiers,
            Statement::Retain(name, keep) => Statement::Retain(name.try_copy(alloc)?, *keep),
            Statement::SetIsolation(strict) => Statement::SetIsolation(*strict),
            Statement::SetCluster(name) => Statement::SetCluster(name.try_copy(alloc)?),
        })
    }

    /// The kind of the statement. Takes no memory.
    pub fn kind(&self) -> Kind
        ensures { result ≡ kind_of self.now }
    {
        match self {
            Statement::Query(_, _) => Kind::Query,
            Statement::Start => Kind::Start,
            Statement::Commit => Kind::Commit,
            Statement::Retain(_, _) => Kind::Retain,
            Statement::ShowFrontiers => Kind::ShowFrontiers,
            Statement::SetIsolation(_) | Statement::SetCluster(_) => Kind::Set,
            _ => Kind::Command,
        }
    }
}
