//! Tokens, and lists of them.

ghost use Rattle.std.specs.Prelude.{◌≡◌, ◌↔◌, length, IsTrue};
ghost use Rattle.mz_lex.specs.Cut.{AreInOrder};

use std::marker::Model;

/// What a token is.
#[derive(Clone, Copy, Debug, PartialEq, Eq)]
pub enum TokenKind {
    /// A letter or an underscore, then letters, underscores and digits.
    Word,
    /// Digits.
    Number,
    /// A text between single quotes.
    Quoted,
    /// One of `( ) , . * = < > <= >= <> - ;`.
    Sign,
}

/// A token and where it stands: the bytes from `start` up to and without `end`, counted from 0.
#[derive(Clone, Copy, Debug, PartialEq, Eq)]
pub struct Token {
    /// What it is.
    pub kind: TokenKind,
    /// The place of its first byte.
    pub start: u64,
    /// The place behind its last byte.
    pub end: u64,
}

impl Token {
    ghost use Rattle.std.specs.Prelude.{◌≡◌, IsUtf8};
    ghost use Rattle.std.specs.List.{slice_range};
    ghost use Rattle.mz_lex.specs.Cut.{IsSpan};

    /// The bytes of the token, in the text that it was cut from. Takes no memory.
    pub fn bytes<'a>(&self, text: &'a str) -> &'a [u8]
        requires { IsSpan text.now self.now }
        ensures slice { result.now ≡ slice_range text.now self.now.start self.now.end }
        ensures utf8 { IsUtf8 result.now }
    {
        &text.as_bytes()[self.start as usize..self.end as usize]
    }
}

/// The tokens of a text, in order: each has a byte at least, and ends before the next starts.
#[derive(Drop)]
pub struct Tokens {
    list: Vec<Token>,
}

impl Model for Tokens {
    ghost use Rattle.std.specs.Prelude.{List};
    ghost use Rattle.mz_lex.specs.declared.token.Token.{Token};
    ghost use Rattle.mz_lex.specs.Cut.{AreInOrder};

    ghost Value = { List Token };

    ghost view = { λ tokens. tokens.list.items };

    ghost invariant = { λ tokens. AreInOrder 0 tokens.list.items };
}

impl Tokens {
    /// The tokens of this list.
    pub(crate) fn from_vec(list: Vec<Token>) -> Tokens
        requires { AreInOrder 0 list.items }
        ensures { result ≡ list.items }
    {
        Tokens { list }
    }

    /// The tokens, in order. Takes no memory.
    pub fn as_slice(&self) -> &[Token]
        ensures same { result.now ≡ self.now }
        ensures in_order { AreInOrder 0 result.now }
    {
        self.list.as_slice()
    }

    /// How many tokens there are. Takes no memory.
    pub fn len(&self) -> usize
        ensures { result ≡ length self.now }
    {
        self.list.len()
    }

    /// Whether there is none. Takes no memory.
    pub fn is_empty(&self) -> bool
        ensures { IsTrue result ↔ (length self.now ≡ 0) }
    {
        self.list.is_empty()
    }

    /// The tokens as a `Vec`, which they were kept in. Takes no memory.
    pub fn into_vec(self) -> Vec<Token>
        ensures { result.items ≡ self }
    {
        let Tokens { list } = self;
        list
    }
}
