//! Statements, as they are printed.
ghost use Rattle.std.specs.Prelude.{◌≡◌, ◌∷◌, List, OnOk};
ghost use Rattle.mz_print.specs.Piece.{Piece, Fixed, Name as N};
ghost use Rattle.mz_print.specs.Print.{print_as_of, type_word, isolation_word, print_definition, print_keep, print_statement};
ghost use Rattle.mz_print.specs.Writer.{written};
ghost use Rattle.mz_statement.specs.declared.statement.Statement.TheVariants as s;

use crate::condition::print_where;
use crate::list::{Print, print_listed};
use crate::select::print_query;
use crate::word::Unreserved;
use crate::writer::Writer;
use mz_grammar::Key;
use mz_statement::{Column, ColumnType, Columns, Condition, Keep, Query, Statement};
use mz_value::{Name, Rows};
use std::alloc::AllocError;

// Adds a name behind two keys.
fn print_named(out: &mut Writer, first: Key, second: Key, name: &Name) -> Result<(), AllocError>
    ensures { OnOk result ((rest : List Piece) → written out.new rest
        ≡ written out.old (Fixed first ∷ Fixed second ∷ N name.now ∷ rest)) }
{
    out.key(first)?;
    out.key(second)?;
    out.name(name.as_str())
}

// Adds AS OF and the time, where there is one.
fn print_as_of(out: &mut Writer, as_of: Option<u64>) -> Result<(), AllocError>
    ensures { OnOk result ((rest : List Piece)
        → written out.new rest ≡ written out.old (print_as_of as_of rest)) }
{
    match as_of {
        None => Ok(()),
        Some(time) => {
            out.key(Key::As)?;
            out.key(Key::Of)?;
            out.number(u128::from(time))
        }
    }
}

// The word of a type.
fn type_word(kind: ColumnType) -> Unreserved
    ensures { result ≡ type_word kind }
{
    match kind {
        ColumnType::Int => Unreserved::Int,
        ColumnType::Text => Unreserved::Text,
        ColumnType::Bool => Unreserved::Bool,
        ColumnType::Wide => Unreserved::Wide,
    }
}

// A column of a table, with its type.
impl Print for Column {
    ghost pieces = { print_definition };

    fn print(&self, out: &mut Writer) -> Result<(), AllocError> {
        out.name(self.name.as_str())?;
        out.word(type_word(self.kind))
    }
}

// Adds what a RETAIN keeps.
fn print_keep(out: &mut Writer, keep: Keep) -> Result<(), AllocError>
    ensures { OnOk result ((rest : List Piece)
        → written out.new rest ≡ written out.old (print_keep keep rest)) }
{
    match keep {
        Keep::Lag(times) => {
            out.word(Unreserved::Lag)?;
            out.number(u128::from(times))
        }
        Keep::From(time) => {
            out.key(Key::From)?;
            out.number(u128::from(time))
        }
        Keep::Stay => out.word(Unreserved::Stay),
    }
}

// Adds a query that is a statement.
fn print_ask(out: &mut Writer, query: &Query, as_of: Option<u64>) -> Result<(), AllocError>
    ensures { OnOk result ((rest : List Piece) → written out.new rest
        ≡ written out.old (print_statement (s.Query query.now as_of) rest)) }
{
    print_query(out, query.as_slice())?;
    print_as_of(out, as_of)
}

// Adds CREATE TABLE.
fn print_create_table(out: &mut Writer, name: &Name, columns: &Columns) -> Result<(), AllocError>
    ensures { OnOk result ((rest : List Piece) → written out.new rest
        ≡ written out.old (print_statement (s.CreateTable name.now columns.now) rest)) }
{
    print_named(out, Key::Create, Key::Table, name)?;
    out.key(Key::Open)?;
    print_listed(out, Key::Comma, columns.as_slice())?;
    out.key(Key::Close)
}

// Adds CREATE VIEW.
fn print_create_view(out: &mut Writer, name: &Name, query: &Query) -> Result<(), AllocError>
    ensures { OnOk result ((rest : List Piece) → written out.new rest
        ≡ written out.old (print_statement (s.CreateView name.now query.now) rest)) }
{
    print_named(out, Key::Create, Key::View, name)?;
    out.key(Key::As)?;
    print_query(out, query.as_slice())
}

// Adds CREATE INDEX.
fn print_create_index(out: &mut Writer, name: &Name, on: &Name) -> Result<(), AllocError>
    ensures { OnOk result ((rest : List Piece) → written out.new rest
        ≡ written out.old (print_statement (s.CreateIndex name.now on.now) rest)) }
{
    print_named(out, Key::Create, Key::Index, name)?;
    out.key(Key::On)?;
    out.name(on.as_str())
}

// Adds INSERT.
fn print_insert(out: &mut Writer, name: &Name, rows: &Rows) -> Result<(), AllocError>
    ensures { OnOk result ((rest : List Piece) → written out.new rest
        ≡ written out.old (print_statement (s.Insert name.now rows.now) rest)) }
{
    print_named(out, Key::Insert, Key::Into, name)?;
    out.key(Key::Values)?;
    print_listed(out, Key::Comma, rows.as_slice())
}

// Adds DELETE.
fn print_delete(out: &mut Writer, name: &Name, test: &Option<Condition>) -> Result<(), AllocError>
    ensures { OnOk result ((rest : List Piece) → written out.new rest
        ≡ written out.old (print_statement (s.Delete name.now test.now) rest)) }
{
    print_named(out, Key::Delete, Key::From, name)?;
    print_where(out, test)
}

// Adds SHOW FRONTIERS.
fn print_show(out: &mut Writer) -> Result<(), AllocError>
    ensures { OnOk result ((rest : List Piece) → written out.new rest
        ≡ written out.old (print_statement s.ShowFrontiers rest)) }
{
    out.key(Key::Show)?;
    out.word(Unreserved::Frontiers)
}

// Adds RETAIN.
fn print_retain(out: &mut Writer, name: &Name, keep: Keep) -> Result<(), AllocError>
    ensures { OnOk result ((rest : List Piece) → written out.new rest
        ≡ written out.old (print_statement (s.Retain name.now keep) rest)) }
{
    out.key(Key::Retain)?;
    out.name(name.as_str())?;
    print_keep(out, keep)
}

// The word of an isolation.
fn isolation_word(strict: bool) -> Unreserved
    ensures { result ≡ isolation_word strict }
{
    if strict {
        Unreserved::Strict
    } else {
        Unreserved::Session
    }
}

// Adds SET ISOLATION.
fn print_set_isolation(out: &mut Writer, strict: bool) -> Result<(), AllocError>
    ensures { OnOk result ((rest : List Piece) → written out.new rest
        ≡ written out.old (print_statement (s.SetIsolation strict) rest)) }
{
    out.word(Unreserved::Set)?;
    out.word(Unreserved::Isolation)?;
    out.word(isolation_word(strict))
}

// Adds SET CLUSTER.
fn print_set_cluster(out: &mut Writer, name: &Name) -> Result<(), AllocError>
    ensures { OnOk result ((rest : List Piece) → written out.new rest
        ≡ written out.old (print_statement (s.SetCluster name.now) rest)) }
{
    out.word(Unreserved::Set)?;
    out.word(Unreserved::Cluster)?;
    out.name(name.as_str())
}

/// Adds a statement.
pub fn print_statement(out: &mut Writer, statement: &Statement) -> Result<(), AllocError>
    ensures { OnOk result ((rest : List Piece)
        → written out.new rest ≡ written out.old (print_statement statement.now rest)) }
{
    match statement {
        Statement::Query(query, as_of) => print_ask(out, query, *as_of),
        Statement::CreateTable(name, columns) => print_create_table(out, name, columns),
        Statement::CreateView(name, query) => print_create_view(out, name, query),
        Statement::CreateIndex(name, on) => print_create_index(out, name, on),
        Statement::DropTable(name) => print_named(out, Key::Drop, Key::Table, name),
        Statement::DropView(name) => print_named(out, Key::Drop, Key::View, name),
        Statement::DropIndex(name) => print_named(out, Key::Drop, Key::Index, name),
        Statement::Insert(name, rows) => print_insert(out, name, rows),
        Statement::Delete(name, test) => print_delete(out, name, test),
        Statement::Start => out.key(Key::Begin),
        Statement::Commit => out.key(Key::Commit),
        Statement::ShowFrontiers => print_show(out),
        Statement::Retain(name, keep) => print_retain(out, name, *keep),
        Statement::SetIsolation(strict) => print_set_isolation(out, *strict),
        Statement::SetCluster(name) => print_set_cluster(out, name),
    }
}
