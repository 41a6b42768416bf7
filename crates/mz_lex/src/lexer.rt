//! The lexer: one pass over the bytes of a text.

ghost use Rattle.std.specs.Prelude.{◌≡◌, ◌≢◌, ℕ, false, List, IfOk, IfErr, All};
ghost use Rattle.mz_lex.specs.declared.token.Token.{Token};
ghost use Rattle.mz_lex.specs.Bytes.{is_blank, starts};
ghost use Rattle.mz_lex.specs.Cut.{HasGap, IsCutInto, IsSpan};
ghost use Rattle.mz_lex.specs.Fault.{IsFault, IsFirstFault};

use crate::fault::LexFault;
use crate::scan::{blanks_len, token_at};
use crate::token::{Token, Tokens};
use std::alloc::Global;

/// The tokens of a text, or its first fault.
///
/// One pass without recursion: the time grows with the text, and the list with the tokens.
pub fn tokens(alloc: Global, text: &str) -> Result<Tokens, LexFault>
    ensures ok { IfOk result (λ tokens. IsCutInto text.now tokens) }
    ensures spans { IfOk result (λ tokens. All (IsSpan text.now) tokens) }
    ensures fault { IfErr result (λ fault. IsFault text.now fault) }

    // Unless memory runs out, a text with tokens gives them, and one with a fault is refused there.
    ensures only { (ts : List Token) → IsCutInto text.now ts → result ≢ Err LexFault.Memory
        → result ≡ Ok ts }
    ensures place { (at : ℕ) → IsFirstFault text.now at → result ≢ Err LexFault.Memory
        → result ≡ Err (LexFault.Bad at) }
{
    Ok(Tokens::from_vec(cut(alloc, text.as_bytes())?))
}

fn cut(alloc: Global, text: &[u8]) -> Result<Vec<Token>, LexFault>
    ensures ok { IfOk result (λ list. IsCutInto text.now list.items) }
    ensures fault { IfErr result (λ fault. IsFault text.now fault) }
{
    let mut list = Vec::new(alloc);
    let mut rest = after_blanks(text);
    'tokens: while !rest.is_empty() {
        let start = text.len() - rest.len();
        let Some((kind, len)) = token_at(rest) else {
            return Err(LexFault::Bad { at: start as u64 });
        };
        list.push(Token {
            kind,
            start: start as u64,
            end: (start + len) as u64,
        })?;
        let (_, after) = rest.split_at(len);
        rest = after_blanks(after);
    }
    Ok(list)
}

fn after_blanks(bytes: &[u8]) -> &[u8]
    ensures gap { HasGap bytes.now result.now }
    ensures no_blank { starts is_blank result.now ≡ false }
{
    let (_, rest) = bytes.split_at(blanks_len(bytes));
    rest
}
