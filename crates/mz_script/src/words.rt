//! The words of a line, and the names and numbers among them.
ghost use Rattle.std.specs.Prelude.{◌≡◌, ◌≤◌, ◌<◌, ◌==◌, ◌∷◌, [], IfSome, MatchOption, drop, length, not, position, take_while};
ghost use Rattle.std.specs.Char.{is_ascii_digit};
ghost use Rattle.std.specs.List.{list_all};
ghost use Rattle.mz_script.specs.Lines.{after_spaces};
ghost use Rattle.mz_script.specs.Words.{are_digits, has_leading_zero, has_space_at_end, is_script_name, number_of, words_of};

use mz_grammar::Digits;
use mz_time::Time;
use mz_value::is_name;

const MOST_DIGITS: usize = 20;

/// The place of the first such byte. Cost: the bytes up to that place.
pub fn place_of(byte: u8, bytes: &[u8]) -> Option<usize>
    ensures place { result ≡ position (λ b. b == byte) bytes.now }
    ensures within { IfSome result (λ place. place < length bytes.now) }
{
    bytes.iter().position(|b| *b == byte)
}

// How many spaces the text begins with.
fn leading_spaces(text: &[u8]) -> usize
    ensures value { result ≡ length (take_while (λ byte. byte == 32) text.now) }
    ensures within { result ≤ length text.now }
{
    text.iter().take_while(|byte| **byte == b' ').count()
}

/// The text without its leading spaces.
#[tactic(auto, using(crate::proofs::WordLemmas::behind))]
pub fn after_spaces(text: &[u8]) -> &[u8]
    ensures { result.now ≡ after_spaces text.now }
{
    &text[leading_spaces(text)..]
}

/// Whether a space stands at an end of the text.
pub fn has_space_at_end(text: &[u8]) -> bool
    ensures { result ≡ has_space_at_end text.now }
{
    text.starts_with(b" ") || text.ends_with(b" ")
}

// How many bytes of the text stand before its first space.
fn word_len(text: &[u8]) -> usize
    ensures value { result ≡ length (take_while (λ byte. not (byte == 32)) text.now) }
    ensures within { result ≤ length text.now }
{
    text.iter().take_while(|byte| **byte != b' ').count()
}

/// The first word of a text, and what stands behind it, unless there is none.
pub fn next_word(text: &[u8]) -> Option<(&[u8], &[u8])>
    ensures { MatchOption result (words_of text.now ≡ [])
        (λ cut. words_of text.now ≡ cut.0.now ∷ words_of cut.1.now) }
{
    let text = after_spaces(text);
    if text.is_empty() {
        return None;
    }
    let end = word_len(text);
    Some((&text[..end], &text[end..]))
}

/// Whether the bytes are a name in a script.
pub fn is_script_name(bytes: &[u8]) -> bool
    ensures { result ≡ is_script_name bytes.now }
{
    match bytes {
        [] => false,
        [first, ..] => first.is_ascii_lowercase() && is_name(bytes),
    }
}

// Whether all bytes are digits.
fn all_digits(bytes: &[u8]) -> bool
    ensures { result ≡ list_all is_ascii_digit bytes.now }
{
    bytes.iter().all(|byte| byte.is_ascii_digit())
}

// Whether a zero leads other digits.
fn has_leading_zero(word: &[u8]) -> bool
    ensures { result ≡ has_leading_zero word.now }
{
    match word {
        [digit, _, ..] => *digit == b'0',
        _ => false,
    }
}

// Whether these are the digits of a number.
fn are_digits(word: &[u8]) -> bool
    ensures { result ≡ are_digits word.now }
{
    all_digits(word) && 1 <= word.len() && word.len() <= MOST_DIGITS && !has_leading_zero(word)
}

/// The number that a word is, if it is one, as a time.
#[tactic(auto, using(crate::proofs::TextLemmas::digits_are_number))]
pub fn time(word: &[u8]) -> Option<Time>
    ensures { result ≡ number_of word.now }
{
    if !are_digits(word) {
        return None;
    }
    Time::new(Digits::new(word).value()?)
}

/// The number that a word is, if it is one.
pub fn number(word: &[u8]) -> Option<u64>
    ensures { result ≡ number_of word.now }
{
    Some(time(word)?.number())
}
