//! What the readers share: faults, keys, names and columns.
ghost use Rattle.std.specs.Prelude.{◌≡◌, length};
ghost use Rattle.mz_parse.specs.Reading.{Gives, name_at, alias_at, key_at, begins_as_of, column_from, column_at};
ghost use Rattle.mz_grammar.specs.declared.key.Key.TheVariants as k;
ghost use Rattle.mz_grammar.specs.Token.{next};

use crate::fault::{Fault, ReadError};
use mz_grammar::{Key, Tok, Word, after};
use mz_statement::ColumnName;
use mz_value::Name;
use std::alloc::Global;

/// What was read, and the tokens behind it.
pub type Read<'a, T> = Result<(T, &'a [Tok<'a>]), ReadError>;

/// The fault at the first of the tokens. Takes no memory.
pub fn stuck(tokens: &[Tok]) -> ReadError
    ensures { result ≡ ReadError.Fault (Fault.Syntax (length tokens.now)) }
{
    ReadError::Fault(Fault::Syntax(tokens.len() as u64))
}

/// What stands behind the key, which has to stand first. Takes no memory.
pub fn expect<'a>(key: Key, tokens: &'a [Tok<'a>]) -> Result<&'a [Tok<'a>], ReadError>
    ensures { Gives (λ x. x.now) result (key_at key tokens.now) }
{
    match after(key, tokens) {
        Some(rest) => Ok(rest),
        None => Err(stuck(tokens)),
    }
}

/// A word that isn't reserved. Takes no memory.
pub fn word<'a>(tokens: &'a [Tok<'a>]) -> Read<'a, &'a Word<'a>>
    ensures { Gives (λ x. (x.0.now, x.1.now)) result (name_at tokens.now) }
{
    match tokens {
        [first, rest @ ..] => match first {
            Tok::Name(word) => Ok((word, rest)),
            _ => Err(stuck(tokens)),
        },
        [] => Err(stuck(tokens)),
    }
}

/// A name.
pub fn name<'a>(alloc: Global, tokens: &'a [Tok<'a>]) -> Read<'a, Name>
    ensures { Gives (λ x. (x.0, x.1.now)) result (name_at tokens.now) }
{
    let (word, rest) = word(tokens)?;
    Ok((word.name(alloc)?, rest))
}

/// A name behind AS, where AS stands first.
pub fn alias<'a>(alloc: Global, tokens: &'a [Tok<'a>]) -> Read<'a, Option<Name>>
    ensures { Gives (λ x. (x.0, x.1.now)) result (alias_at tokens.now) }
{
    match after(Key::As, tokens) {
        Some(rest) => {
            let (name, rest) = name(alloc, rest)?;
            Ok((Some(name), rest))
        }
        None => Ok((None, tokens)),
    }
}

/// Whether AS OF stands first. Takes no memory.
pub fn begins_as_of<'a>(tokens: &'a [Tok<'a>]) -> bool
    ensures { result ≡ begins_as_of tokens.now }
{
    match after(Key::As, tokens) {
        Some(rest) => match after(Key::Of, rest) {
            Some(_) => true,
            None => false,
        },
        None => false,
    }
}

/// The column whose first word was read: another may stand behind a point.
pub fn column_from<'a>(alloc: Global, first: Name, tokens: &'a [Tok<'a>]) -> Read<'a, ColumnName>
    ensures { Gives (λ x. (x.0, x.1.now)) result
        (column_from first tokens.now (next k.Dot tokens.now)) }
{
    match after(Key::Dot, tokens) {
        Some(rest) => {
            let (name, rest) = name(alloc, rest)?;
            let qualifier = Some(first);
            Ok((ColumnName { qualifier, name }, rest))
        }
        None => {
            let column = ColumnName {
                qualifier: None,
                name: first,
            };
            Ok((column, tokens))
        }
    }
}

/// A column.
pub fn column<'a>(alloc: Global, tokens: &'a [Tok<'a>]) -> Read<'a, ColumnName>
    ensures { Gives (λ x. (x.0, x.1.now)) result (column_at tokens.now) }
{
    let (first, rest) = name(alloc, tokens)?;
    column_from(alloc, first, rest)
}
