//! The parser.
ghost use Rattle.std.specs.Prelude.{◌≡◌, ◌≢◌, ℕ, ◌-◌, IfOk, IfErr, length, take};
ghost use Rattle.mz_lex.specs.Fault.{IsFirstFault};
ghost use Rattle.mz_statement.specs.declared.statement.Statement.{Statement};
ghost use Rattle.mz_grammar.specs.Grammar.{IsSpelling};
ghost use Rattle.mz_grammar.specs.Faults.{place_of, is_minus, ends_in_minus, literal_start, IsParseFault};

use crate::fault::{Fault, ReadError};
use crate::statement::whole;
use mz_grammar::{Key, ParseFault, Tok, toks};
use mz_lex::{LexFault, Token, tokens};
use mz_statement::Statement;
use mz_value::Text;
use std::alloc::Global;

// The place of the token that has so many before it, or the text's end where there is none.
fn place(text: &str, tokens: &[Token], before: usize) -> u64
    ensures { result ≡ place_of text.now tokens.now before }
{
    match tokens.get(before) {
        Some(token) => token.start,
        None => text.len() as u64,
    }
}

// Whether the token is a minus.
fn is_minus(token: &Tok) -> bool
    ensures { result ≡ is_minus token.now }
{
    match token {
        Tok::Key(Key::Minus) => true,
        _ => false,
    }
}

// Whether the last of the tokens is a minus.
fn ends_in_minus(tokens: &[Tok]) -> bool
    ensures { result ≡ ends_in_minus tokens.now }
{
    match tokens {
        [.., last] => is_minus(last),
        [] => false,
    }
}

// How many tokens stand before a literal whose number or text has this front.
fn literal_start(front: &[Tok]) -> usize
    ensures { result ≡ literal_start front.now }
{
    if ends_in_minus(front) {
        front.len() - 1
    } else {
        front.len()
    }
}

// The fault of the reading, at its place in the text.
fn at_place(text: &str, tokens: &[Token], list: &[Tok], error: ReadError) -> ParseFault
    ensures memory { error ≡ ReadError.Memory → result ≡ ParseFault.Memory }
    ensures syntax { (left : ℕ) → error ≡ ReadError.Fault (Fault.Syntax left)
        → result ≡ ParseFault.Syntax (place_of text.now tokens.now (length list.now - left)) }
    ensures range { (left : ℕ) → error ≡ ReadError.Fault (Fault.Range left)
        → result ≡ ParseFault.LiteralRange (place_of text.now tokens.now
        (literal_start (take (length list.now - left) list.now))) }
{
    match error {
        ReadError::Memory => ParseFault::Memory,
        ReadError::Fault(Fault::Syntax(left)) => {
            let before = list.len().saturating_sub(left as usize);
            ParseFault::Syntax {
                at: place(text, tokens, before),
            }
        }
        ReadError::Fault(Fault::Range(left)) => {
            let before = list.len().saturating_sub(left as usize);
            ParseFault::LiteralRange {
                at: place(text, tokens, literal_start(&list[..before])),
            }
        }
    }
}

/// The statement that the text spells.
///
/// A fault is at the first token that can't go on a statement, or at the text's end where it ended
/// too early. A literal out of its range is one as it is met, at its first byte. The time grows
/// with the text. Names and texts are copied once. The recursion is as deep as the NOTs and
/// parentheses of a condition, 64 at most.
pub fn parse(alloc: Global, text: &Text) -> Result<Statement, ParseFault>
    ensures ok { IfOk result (λ statement. IsSpelling text.now statement) }

    // Unless memory runs out, a text that spells a statement gives it.
    ensures only { (statement : Statement) → IsSpelling text.now statement
        → result ≢ Err ParseFault.Memory → result ≡ Ok statement }

    // A text that is not cut into tokens is refused where the first of them is missing.
    ensures lexical { (at : ℕ) → IsFirstFault text.now at → result ≢ Err ParseFault.Memory
        → result ≡ Err (ParseFault.Syntax at) }

    // A fault is the first one of the text: what precedes it can be made a statement, and what
    // stands there can't go on with it.
    ensures fault { IfErr result (λ fault. IsParseFault text.now fault) }
{
    let text = text.as_str();
    let tokens = match tokens(alloc, text) {
        Ok(tokens) => tokens,
        Err(LexFault::Bad { at }) => return Err(ParseFault::Syntax { at }),
        Err(LexFault::Memory) => return Err(ParseFault::Memory),
    };
    let list = toks(alloc, text, tokens.as_slice())?;
    match whole(alloc, list.as_slice()) {
        Ok(statement) => Ok(statement),
        Err(error) => Err(at_place(text, tokens.as_slice(), list.as_slice(), error)),
    }
}
