//! What words and quoted texts stand for.

ghost use Rattle.std.specs.Prelude.{◌≡◌, ◌<◌, ◌∷◌, length, slice_index, IfOk, IsTrue, IsUtf8};
ghost use Rattle.mz_lex.specs.Lowered.{lowered, is_small};
ghost use Rattle.mz_lex.specs.Quoted.{quoted, singled, unquoted, IsQuoted};
ghost use Rattle.mz_lex.specs.Spelling.{IsWord};

use std::alloc::{AllocError, Global};

/// The bytes of a word, with its letters made small. The time grows with the length.
pub fn lowered(alloc: Global, word: &[u8]) -> Result<Vec<u8>, AllocError>
    ensures value { IfOk result (λ name. name.items ≡ lowered word.now) }
    ensures small { IfOk result (λ name. IsTrue (is_small name.items)) }
    ensures word { IsWord word.now → IfOk result (λ name. IsWord name.items) }
{
    word.iter()
        .map(|byte| byte.to_ascii_lowercase())
        .collect(alloc)
}

/// The text that stands in quotes, with each doubled quote once. The time grows with the length.
#[tactic(auto, using(crate::proofs::QuotedLemmas::quoted_long))]
pub fn unquoted(alloc: Global, bytes: &[u8]) -> Result<Vec<u8>, AllocError>
    requires { IsQuoted bytes.now }
    ensures text { IfOk result (λ text. bytes.now ≡ quoted text.items) }
    ensures value { IfOk result (λ text. text.items ≡ unquoted bytes.now) }
    ensures utf8 { IsUtf8 bytes.now → IfOk result (λ text. IsUtf8 text.items) }
{
    let mut rest = &bytes[1..bytes.len() - 1];
    let mut text = Vec::with_capacity(alloc, rest.len())?;
    'bytes: while let [first, ..] = rest {
        text.push(*first)?;
        rest = after_first(rest);
    }
    Ok(text)
}

// What stands behind the first byte, or behind both of two quotes.
fn after_first(bytes: &[u8]) -> &[u8]
    requires { 0 < length bytes.now }
    ensures value { singled bytes.now ≡ slice_index bytes.now 0 ∷ singled result.now }
    ensures less { length result.now < length bytes.now }
{
    match bytes {
        [b'\'', b'\'', rest @ ..] => rest,
        _ => &bytes[1..],
    }
}
