//! Tokens as the grammar sees them.
ghost use Rattle.std.specs.Prelude.{◌≡◌, MatchOption, Some, None};
ghost use Rattle.mz_grammar.specs.Token.{next};

use crate::key::{Key, same};
use mz_lex::{lowered, unquoted};
use mz_value::{Name, Text};
use std::alloc::{AllocError, Global};
use std::marker::Model;

/// A word that is not reserved, seen as the name that it stands for.
#[derive(Debug, Drop)]
pub struct Word<'a> {
    bytes: &'a [u8],
}

impl<'a> Model for Word<'a> {
    ghost use Rattle.std.specs.Prelude.{List, ℕ, ◌≡◌, true};
    ghost use Rattle.mz_lex.specs.Lowered.{lowered};
    ghost use Rattle.mz_value.specs.Name.{is_name};

    ghost Value = { List ℕ };

    ghost view = { λ w. lowered w.bytes.now };

    ghost invariant = { λ w. is_name (lowered w.bytes.now) ≡ true };
}

impl<'a> Word<'a> {
    ghost use Rattle.std.specs.Prelude.{◌≡◌, true, IfOk, bytes_eq};
    ghost use Rattle.mz_lex.specs.Lowered.{lowered};
    ghost use Rattle.mz_value.specs.Name.{is_name};

    /// The word of these bytes. Takes no memory.
    pub fn new(bytes: &'a [u8]) -> Word<'a>
        requires { is_name (lowered bytes.now) ≡ true }
        ensures { result ≡ lowered bytes.now }
    {
        Word { bytes }
    }

    /// The name. It takes memory for the name alone.
    #[tactic(auto, using(mz_value::proofs::NameText::name_utf8))]
    pub fn name(&self, alloc: Global) -> Result<Name, AllocError>
        ensures { IfOk result (λ name. name ≡ self.now) }
    {
        match String::from_utf8(lowered(alloc, self.bytes)?) {
            Ok(string) => Ok(Name::from_string(string)),
            Err(_) => unreachable!(),
        }
    }

    /// Whether the word stands for this name, which has no capitals. Takes no memory.
    #[tactic(auto, using(crate::proofs::Words::key_tests))]
    pub fn is(&self, name: &str) -> bool
        requires { lowered name.now ≡ name.now }
        ensures { result ≡ bytes_eq self.now name.now }
    {
        self.bytes.eq_ignore_ascii_case(name.as_bytes())
    }
}

/// Digits, seen as their number.
#[derive(Debug, Drop)]
pub struct Digits<'a> {
    bytes: &'a [u8],
}

impl<'a> Model for Digits<'a> {
    ghost use Rattle.std.specs.Prelude.{ℕ};
    ghost use Rattle.std.specs.Str.Parse.{digits_value};
    ghost use Rattle.mz_lex.specs.Spelling.{IsNumber};

    ghost Value = { ℕ };

    ghost view = { λ d. digits_value 10 d.bytes.now };

    ghost invariant = { λ d. IsNumber d.bytes.now };
}

impl<'a> Digits<'a> {
    ghost use Rattle.std.specs.Prelude.{◌≡◌, ◌<◌, ◌^◌, SomeIff};
    ghost use Rattle.std.specs.Str.Parse.{digits_value};
    ghost use Rattle.mz_lex.specs.Spelling.{IsNumber};

    /// The number of these digits. Takes no memory.
    pub fn new(bytes: &'a [u8]) -> Digits<'a>
        requires { IsNumber bytes.now }
        ensures { result ≡ digits_value 10 bytes.now }
    {
        Digits { bytes }
    }

    /// The number, where it is below 2^64. Takes no memory.
    pub fn value(&self) -> Option<u64>
        ensures { SomeIff result (self.now < 2 ^ 64) self.now }
    {
        match str::from_utf8(self.bytes) {
            Ok(text) => match text.parse::<u64>() {
                Ok(number) => Some(number),
                Err(_) => None,
            },
            Err(_) => unreachable!(),
        }
    }
}

/// A text in quotes, seen as what it stands for.
#[derive(Debug, Drop)]
pub struct Quote<'a> {
    bytes: &'a [u8],
}

impl<'a> Model for Quote<'a> {
    ghost use Rattle.std.specs.Prelude.{List, ℕ, IsUtf8};
    ghost use Rattle.mz_lex.specs.Quoted.{unquoted, IsQuoted};

    ghost Value = { List ℕ };

    ghost view = { λ q. unquoted q.bytes.now };

    ghost invariant = { λ q. IsQuoted q.bytes.now × IsUtf8 q.bytes.now };
}

impl<'a> Quote<'a> {
    ghost use Rattle.std.specs.Prelude.{◌≡◌, IfOk, IsUtf8};
    ghost use Rattle.mz_lex.specs.Quoted.{unquoted, IsQuoted};

    /// The text of these bytes. Takes no memory.
    pub fn new(bytes: &'a [u8]) -> Quote<'a>
        requires quoted { IsQuoted bytes.now }
        requires utf8 { IsUtf8 bytes.now }
        ensures { result ≡ unquoted bytes.now }
    {
        Quote { bytes }
    }

    /// The text.
    pub fn text(&self, alloc: Global) -> Result<Text, AllocError>
        ensures { IfOk result (λ text. text ≡ self.now) }
    {
        let bytes = unquoted(alloc, self.bytes)?;
        match String::from_utf8(bytes) {
            Ok(string) => Ok(Text::from_string(string)),
            Err(_) => unreachable!(),
        }
    }
}

/// A token.
#[derive(Debug, Drop)]
pub enum Tok<'a> {
    /// A reserved word or a sign.
    Key(Key),
    /// A word that may be a name.
    Name(Word<'a>),
    /// Digits.
    Number(Digits<'a>),
    /// A text in quotes.
    Text(Quote<'a>),
}

/// What stands behind the key, where it stands first. Takes no memory.
pub fn after<'a>(key: Key, tokens: &'a [Tok<'a>]) -> Option<&'a [Tok<'a>]>
    ensures { MatchOption result (next key tokens.now ≡ None)
        (λ rest. next key tokens.now ≡ Some rest.now) }
{
    match tokens {
        [] => None,
        [first, rest @ ..] => match first {
            Tok::Key(first) if same(*first, key) => Some(rest),
            _ => None,
        },
    }
}
