//! How far the token at the front of some bytes reaches.

ghost use Rattle.std.specs.Prelude.{◌≡◌, ◌≤◌, length, IfSome, IfNone};
ghost use Rattle.std.specs.Char.{is_ascii_digit};
ghost use Rattle.std.specs.List.{prefix_len};
ghost use Rattle.mz_lex.specs.declared.token.TokenKind.TheVariants.{Word, Number, Sign};
ghost use Rattle.mz_lex.specs.Bytes.{is_blank, is_word_start, is_word_byte, starts};
ghost use Rattle.mz_lex.specs.Reach.{quoted_reach};
ghost use Rattle.mz_lex.specs.Spelling.{is_single, is_double, Reaches, Finds};

use crate::token::TokenKind;

// The most bytes that a word has.
const LONGEST_WORD: usize = 63;

fn is_blank(byte: u8) -> bool
    ensures { result ≡ is_blank byte }
{
    byte == b' ' || byte == b'\t'
}

fn is_word_start(byte: u8) -> bool
    ensures { result ≡ is_word_start byte }
{
    byte.is_ascii_alphabetic() || byte == b'_'
}

fn is_word_byte(byte: u8) -> bool
    ensures { result ≡ is_word_byte byte }
{
    is_word_start(byte) || byte.is_ascii_digit()
}

// How many blanks stand at the front.
pub(crate) fn blanks_len(bytes: &[u8]) -> usize
    ensures blanks { result ≡ prefix_len is_blank bytes.now }
    ensures within { result ≤ length bytes.now }
{
    bytes.iter().take_while(|byte| is_blank(**byte)).count()
}

fn word_bytes_len(bytes: &[u8]) -> usize
    ensures { result ≡ prefix_len is_word_byte bytes.now }
{
    bytes.iter().take_while(|byte| is_word_byte(**byte)).count()
}

fn digits_len(bytes: &[u8]) -> usize
    ensures { result ≡ prefix_len is_ascii_digit bytes.now }
{
    bytes
        .iter()
        .take_while(|byte| byte.is_ascii_digit())
        .count()
}

fn word_len(bytes: &[u8]) -> Option<usize>
    ensures { Reaches Word bytes.now result }
{
    match bytes {
        [first, ..] if is_word_start(*first) => {
            let len = word_bytes_len(bytes);
            if len <= LONGEST_WORD { Some(len) } else { None }
        }
        _ => None,
    }
}

fn number_len(bytes: &[u8]) -> Option<usize>
    ensures { Reaches Number bytes.now result }
{
    let len = digits_len(bytes);
    if len == 0 { None } else { Some(len) }
}

fn quoted_len(bytes: &[u8]) -> Option<usize>
    ensures { result ≡ quoted_reach bytes.now }
{
    let [b'\'', inside @ ..] = bytes else {
        return None;
    };
    let mut rest = inside;
    'inside: loop {
        match rest {
            [b'\'', b'\'', after @ ..] => rest = after,
            [b'\'', after @ ..] => return Some(bytes.len() - after.len()),
            [b'\n', ..] | [] => return None,
            [_, after @ ..] => rest = after,
        }
    }
}

fn is_single(byte: u8) -> bool
    ensures { result ≡ is_single byte }
{
    b"(),.*=<>-;".contains(&byte)
}

fn is_double(first: u8, second: u8) -> bool
    ensures { result ≡ is_double first second }
{
    (first == b'<' && (second == b'=' || second == b'>')) || (first == b'>' && second == b'=')
}

fn sign_len(bytes: &[u8]) -> Option<usize>
    ensures { Reaches Sign bytes.now result }
{
    match bytes {
        [first, second, ..] if is_double(*first, *second) => Some(2),
        [first, ..] if is_single(*first) => Some(1),
        _ => None,
    }
}

// The kind and the length of the token at the front. The time grows with the length, or with all that
// is read of a text without its end: that ends the lexing.
pub(crate) fn token_at(bytes: &[u8]) -> Option<(TokenKind, usize)>
    ensures { Finds bytes.now result }
{
    if let Some(len) = word_len(bytes) {
        Some((TokenKind::Word, len))
    } else if let Some(len) = number_len(bytes) {
        Some((TokenKind::Number, len))
    } else if let Some(len) = quoted_len(bytes) {
        Some((TokenKind::Quoted, len))
    } else if let Some(len) = sign_len(bytes) {
        Some((TokenKind::Sign, len))
    } else {
        None
    }
}
