//! What the tokens of a text stand for.
ghost use Rattle.std.specs.Prelude.{◌≡◌, All, IfOk, IsUtf8, map};
ghost use Rattle.std.specs.List.{slice_range};
ghost use Rattle.mz_lex.specs.declared.token.Token.{Token};
ghost use Rattle.mz_lex.specs.Cut.{IsSpan};
ghost use Rattle.mz_lex.specs.Spelling.{IsWord};
ghost use Rattle.mz_grammar.specs.Token.{reserved_keys, is_key, key_among, word_tok, sign_key, tok_of, toks_of};

use crate::key::{Key, RESERVED_KEYS, spelling};
use crate::token::{Digits, Quote, Tok, Word};
use mz_lex::{Token, TokenKind};
use std::alloc::{AllocError, Global};

// Whether the word is the key, however its letters are written.
#[tactic(auto, using(crate::proofs::Words::key_tests))]
fn is_key(word: &[u8], key: Key) -> bool
    ensures { result ≡ is_key word.now key }
{
    spelling(key).as_bytes().eq_ignore_ascii_case(word)
}

// The first of the keys that the word is.
fn key_among(keys: &[Key], word: &[u8]) -> Option<Key>
    ensures { result ≡ key_among keys.now word.now }
{
    let mut rest = keys;
    'keys: while let [key, others @ ..] = rest {
        if is_key(word, *key) {
            return Some(*key);
        }
        rest = others;
    }
    None
}

// The sign that these bytes are.
fn sign_key(bytes: &[u8]) -> Key
    ensures { result ≡ sign_key bytes.now }
{
    match bytes {
        [b'('] => Key::Open,
        [b')'] => Key::Close,
        [b','] => Key::Comma,
        [b'.'] => Key::Dot,
        [b'*'] => Key::Star,
        [b'='] => Key::Equal,
        [b'<'] => Key::Less,
        [b'>'] => Key::Greater,
        [b'-'] => Key::Minus,
        [b'>', _, ..] => Key::GreaterEqual,
        [_, b'=', ..] => Key::LessEqual,
        [_, _, ..] => Key::Unequal,
        _ => Key::Semicolon,
    }
}

// What a word stands for.
#[tactic(auto, using(crate::proofs::Words::word_name))]
fn word_tok<'a>(bytes: &'a [u8]) -> Tok<'a>
    requires { IsWord bytes.now }
    ensures { result ≡ word_tok (key_among reserved_keys bytes.now) bytes.now }
{
    match key_among(&RESERVED_KEYS, bytes) {
        Some(key) => Tok::Key(key),
        None => Tok::Name(Word::new(bytes)),
    }
}

// What the token stands for.
fn tok<'a>(text: &'a str, token: Token) -> Tok<'a>
    requires { IsSpan text.now token }
    ensures { result ≡ tok_of token.kind (slice_range text.now token.start token.end) }
{
    let bytes = token.bytes(text);
    match token.kind {
        TokenKind::Word => word_tok(bytes),
        TokenKind::Number => Tok::Number(Digits::new(bytes)),
        TokenKind::Quoted => Tok::Text(Quote::new(bytes)),
        TokenKind::Sign => Tok::Key(sign_key(bytes)),
    }
}

/// What the tokens of the text stand for.
pub fn toks<'a>(alloc: Global, text: &'a str, tokens: &[Token]) -> Result<Vec<Tok<'a>>, AllocError>
    requires { All (IsSpan text.now) tokens.now }
    ensures { IfOk result (λ list. list.items ≡ toks_of text.now tokens.now) }
{
    let mut list = Vec::with_capacity(alloc, tokens.len())?;
    'tokens: for token in tokens {
        list.push(tok(text, *token))?;
    }
    Ok(list)
}
