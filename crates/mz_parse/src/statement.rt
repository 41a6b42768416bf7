//! Readers of statements.
ghost use Rattle.std.specs.Prelude.{◌≡◌, List};
ghost use Rattle.mz_parse.specs.Reading.{Gives, time_at, lag_at, as_of_at, type_of, type_at, definition_at, create_table_at, create_view_at, create_index_at, create_at, drop_at, literal_at, tuple_at, insert_at, delete_at, show_at, keep_word_at, keep_at, retain_at, top_query_at, statement_at, nothing_behind, whole_at};
ghost use Rattle.mz_grammar.specs.declared.key.Key.TheVariants as k;

use crate::condition::{literal, out_of_range, where_test};
use crate::fault::ReadError;
use crate::list::{Reader, listed};
use crate::reading::{Read, expect, name, stuck, word};
use crate::select::query;
use mz_grammar::{Key, Tok, Word, after};
use mz_statement::{Column, ColumnType, Columns, Keep, LAGS, Statement, TIMES};
use mz_value::{Datum, Row, Rows};
use std::alloc::Global;

// A time.
fn time<'a>(tokens: &'a [Tok<'a>]) -> Read<'a, u64>
    ensures { Gives (λ x. (x.0, x.1.now)) result (time_at tokens.now) }
{
    match tokens {
        [first, rest @ ..] => match first {
            Tok::Number(digits) => match digits.value() {
                Some(number) if number < TIMES => Ok((number, rest)),
                _ => Err(out_of_range(tokens)),
            },
            _ => Err(stuck(tokens)),
        },
        [] => Err(stuck(tokens)),
    }
}

// How far behind a RETAIN may be.
fn lag<'a>(tokens: &'a [Tok<'a>]) -> Read<'a, u64>
    ensures { Gives (λ x. (x.0, x.1.now)) result (lag_at tokens.now) }
{
    match tokens {
        [first, rest @ ..] => match first {
            Tok::Number(digits) => match digits.value() {
                Some(number) if 1 <= number && number < LAGS => Ok((number, rest)),
                _ => Err(out_of_range(tokens)),
            },
            _ => Err(stuck(tokens)),
        },
        [] => Err(stuck(tokens)),
    }
}

// The time behind AS OF, if AS stands first.
fn as_of<'a>(tokens: &'a [Tok<'a>]) -> Read<'a, Option<u64>>
    ensures { Gives (λ x. (x.0, x.1.now)) result (as_of_at tokens.now) }
{
    match after(Key::As, tokens) {
        Some(rest) => {
            let rest = expect(Key::Of, rest)?;
            let (time, rest) = time(rest)?;
            Ok((Some(time), rest))
        }
        None => Ok((None, tokens)),
    }
}

// A query and its time.
fn top_query<'a>(alloc: Global, tokens: &'a [Tok<'a>]) -> Read<'a, Statement>
    ensures { Gives (λ x. (x.0, x.1.now)) result (top_query_at tokens.now) }
{
    let (query, rest) = query(alloc, true, tokens)?;
    let (as_of, rest) = as_of(rest)?;
    Ok((Statement::Query(query, as_of), rest))
}

// The type that the word names.
fn type_of(word: &Word) -> Option<ColumnType>
    ensures { result ≡ type_of word.now }
{
    if word.is("int") {
        Some(ColumnType::Int)
    } else if word.is("text") {
        Some(ColumnType::Text)
    } else if word.is("bool") {
        Some(ColumnType::Bool)
    } else {
        None
    }
}

// A type.
fn column_type<'a>(tokens: &'a [Tok<'a>]) -> Read<'a, ColumnType>
    ensures { Gives (λ x. (x.0, x.1.now)) result (type_at tokens.now) }
{
    let (word, rest) = word(tokens)?;
    match type_of(word) {
        Some(kind) => Ok((kind, rest)),
        None => Err(stuck(tokens)),
    }
}

// A column of a new table.
fn definition<'a>(alloc: Global, tokens: &'a [Tok<'a>]) -> Read<'a, Column>
    ensures { Gives (λ x. (x.0, x.1.now)) result (definition_at tokens.now) }
{
    let (name, rest) = name(alloc, tokens)?;
    let (kind, rest) = column_type(rest)?;
    Ok((Column { name, kind }, rest))
}

// Reads the columns of a new table.
#[derive(Clone, Copy)]
struct DefinitionReader;

impl Reader<Column> for DefinitionReader {
    ghost reads = { λ _. definition_at };

    fn read<'a>(&self, alloc: Global, tokens: &'a [Tok<'a>]) -> Read<'a, Column> {
        definition(alloc, tokens)
    }
}

// What stands behind CREATE TABLE.
fn create_table<'a>(alloc: Global, tokens: &'a [Tok<'a>]) -> Read<'a, Statement>
    ensures { Gives (λ x. (x.0, x.1.now)) result (create_table_at tokens.now) }
{
    let (name, rest) = name(alloc, tokens)?;
    let rest = expect(Key::Open, rest)?;
    let (columns, rest) = listed(alloc, Key::Comma, &DefinitionReader, rest)?;
    let rest = expect(Key::Close, rest)?;
    let columns = Columns::from_vec(columns);
    Ok((Statement::CreateTable(name, columns), rest))
}

// What stands behind CREATE VIEW.
fn create_view<'a>(alloc: Global, tokens: &'a [Tok<'a>]) -> Read<'a, Statement>
    ensures { Gives (λ x. (x.0, x.1.now)) result (create_view_at tokens.now) }
{
    let (name, rest) = name(alloc, tokens)?;
    let rest = expect(Key::As, rest)?;
    let (query, rest) = query(alloc, false, rest)?;
    Ok((Statement::CreateView(name, query), rest))
}

// What stands behind CREATE INDEX.
fn create_index<'a>(alloc: Global, tokens: &'a [Tok<'a>]) -> Read<'a, Statement>
    ensures { Gives (λ x. (x.0, x.1.now)) result (create_index_at tokens.now) }
{
    let (index, rest) = name(alloc, tokens)?;
    let rest = expect(Key::On, rest)?;
    let (relation, rest) = name(alloc, rest)?;
    Ok((Statement::CreateIndex(index, relation), rest))
}

// What stands behind CREATE.
fn create<'a>(alloc: Global, tokens: &'a [Tok<'a>]) -> Read<'a, Statement>
    ensures { Gives (λ x. (x.0, x.1.now)) result (create_at tokens.now) }
{
    match tokens {
        [first, rest @ ..] => match first {
            Tok::Key(Key::Table) => create_table(alloc, rest),
            Tok::Key(Key::View) => create_view(alloc, rest),
            Tok::Key(Key::Index) => create_index(alloc, rest),
            _ => Err(stuck(tokens)),
        },
        [] => Err(stuck(tokens)),
    }
}

// What stands behind DROP.
fn drop_item<'a>(alloc: Global, tokens: &'a [Tok<'a>]) -> Read<'a, Statement>
    ensures { Gives (λ x. (x.0, x.1.now)) result (drop_at tokens.now) }
{
    match tokens {
        [first, rest @ ..] => match first {
            Tok::Key(Key::Table) => {
                let (name, rest) = name(alloc, rest)?;
                Ok((Statement::DropTable(name), rest))
            }
            Tok::Key(Key::View) => {
                let (name, rest) = name(alloc, rest)?;
                Ok((Statement::DropView(name), rest))
            }
            Tok::Key(Key::Index) => {
                let (name, rest) = name(alloc, rest)?;
                Ok((Statement::DropIndex(name), rest))
            }
            _ => Err(stuck(tokens)),
        },
        [] => Err(stuck(tokens)),
    }
}

// Reads the values of a row.
#[derive(Clone, Copy)]
struct LiteralReader;

impl Reader<Datum> for LiteralReader {
    ghost reads = { λ _. literal_at };

    fn read<'a>(&self, alloc: Global, tokens: &'a [Tok<'a>]) -> Read<'a, Datum> {
        literal(alloc, tokens)
    }
}

// A row in parentheses.
fn tuple<'a>(alloc: Global, tokens: &'a [Tok<'a>]) -> Read<'a, Row>
    ensures { Gives (λ x. (x.0, x.1.now)) result (tuple_at tokens.now) }
{
    let rest = expect(Key::Open, tokens)?;
    let (values, rest) = listed(alloc, Key::Comma, &LiteralReader, rest)?;
    let rest = expect(Key::Close, rest)?;
    Ok((Row::from_vec(values), rest))
}

// Reads the rows of an INSERT.
#[derive(Clone, Copy)]
struct TupleReader;

impl Reader<Row> for TupleReader {
    ghost reads = { λ _. tuple_at };

    fn read<'a>(&self, alloc: Global, tokens: &'a [Tok<'a>]) -> Read<'a, Row> {
        tuple(alloc, tokens)
    }
}

// What stands behind INSERT.
fn insert<'a>(alloc: Global, tokens: &'a [Tok<'a>]) -> Read<'a, Statement>
    ensures { Gives (λ x. (x.0, x.1.now)) result (insert_at tokens.now) }
{
    let rest = expect(Key::Into, tokens)?;
    let (name, rest) = name(alloc, rest)?;
    let rest = expect(Key::Values, rest)?;
    let (rows, rest) = listed(alloc, Key::Comma, &TupleReader, rest)?;
    let rows = Rows::from_vec(rows);
    Ok((Statement::Insert(name, rows), rest))
}

// What stands behind DELETE.
fn delete<'a>(alloc: Global, tokens: &'a [Tok<'a>]) -> Read<'a, Statement>
    ensures { Gives (λ x. (x.0, x.1.now)) result (delete_at tokens.now) }
{
    let rest = expect(Key::From, tokens)?;
    let (name, rest) = name(alloc, rest)?;
    let (test, rest) = where_test(alloc, rest)?;
    Ok((Statement::Delete(name, test), rest))
}

// What stands behind SHOW.
fn show<'a>(tokens: &'a [Tok<'a>]) -> Read<'a, Statement>
    ensures { Gives (λ x. (x.0, x.1.now)) result (show_at tokens.now) }
{
    let (word, rest) = word(tokens)?;
    if word.is("frontiers") {
        Ok((Statement::ShowFrontiers, rest))
    } else {
        Err(stuck(tokens))
    }
}

// The policy whose word at the front of `tokens` was read.
fn keep_word<'a>(tokens: &'a [Tok<'a>], word: &Word, behind: &'a [Tok<'a>]) -> Read<'a, Keep>
    ensures { Gives (λ x. (x.0, x.1.now)) result (keep_word_at tokens.now word.now behind.now) }
{
    if word.is("lag") {
        let (lag, rest) = lag(behind)?;
        Ok((Keep::Lag(lag), rest))
    } else if word.is("stay") {
        Ok((Keep::Stay, behind))
    } else {
        Err(stuck(tokens))
    }
}

// The policy of a RETAIN.
fn keep<'a>(tokens: &'a [Tok<'a>]) -> Read<'a, Keep>
    ensures { Gives (λ x. (x.0, x.1.now)) result (keep_at tokens.now) }
{
    match after(Key::From, tokens) {
        Some(rest) => {
            let (time, rest) = time(rest)?;
            Ok((Keep::From(time), rest))
        }
        None => {
            let (word, rest) = word(tokens)?;
            keep_word(tokens, word, rest)
        }
    }
}

// What stands behind RETAIN.
fn retain<'a>(alloc: Global, tokens: &'a [Tok<'a>]) -> Read<'a, Statement>
    ensures { Gives (λ x. (x.0, x.1.now)) result (retain_at tokens.now) }
{
    let (name, rest) = name(alloc, tokens)?;
    let (keep, rest) = keep(rest)?;
    Ok((Statement::Retain(name, keep), rest))
}

// A statement, by the token that begins it.
fn statement<'a>(alloc: Global, tokens: &'a [Tok<'a>]) -> Read<'a, Statement>
    ensures { Gives (λ x. (x.0, x.1.now)) result (statement_at tokens.now) }
{
    match tokens {
        [first, rest @ ..] => match first {
            Tok::Key(Key::Create) => create(alloc, rest),
            Tok::Key(Key::Drop) => drop_item(alloc, rest),
            Tok::Key(Key::Insert) => insert(alloc, rest),
            Tok::Key(Key::Delete) => delete(alloc, rest),
            Tok::Key(Key::Begin) => Ok((Statement::Start, rest)),
            Tok::Key(Key::Commit) => Ok((Statement::Commit, rest)),
            Tok::Key(Key::Show) => show(rest),
            Tok::Key(Key::Retain) => retain(alloc, rest),
            _ => top_query(alloc, tokens),
        },
        [] => top_query(alloc, tokens),
    }
}

// The statement, behind which nothing may stand.
fn nothing_behind<'a>(statement: Statement, tokens: &'a [Tok<'a>]) -> Result<Statement, ReadError>
    ensures { Gives (λ x. x) result (nothing_behind statement tokens.now) }
{
    match tokens {
        [] => Ok(statement),
        [_, ..] => Err(stuck(tokens)),
    }
}

/// A statement, behind which at most a semicolon stands.
pub fn whole<'a>(alloc: Global, tokens: &'a [Tok<'a>]) -> Result<Statement, ReadError>
    ensures { Gives (λ x. x) result (whole_at tokens.now) }
{
    let (statement, rest) = statement(alloc, tokens)?;
    match after(Key::Semicolon, rest) {
        Some(behind) => nothing_behind(statement, behind),
        None => nothing_behind(statement, rest),
    }
}
