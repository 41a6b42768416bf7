//! Texts with their tokens and with their faults, read off the rules by hand.

use mz_lex::TokenKind::{Number, Quoted, Sign, Word};
use mz_lex::{LexFault, Token, TokenKind, lowered, tokens, unquoted};
use std::alloc::Global;
use std::process::Abort;
use std::test::Fail;

const fn at(kind: TokenKind, start: u64, end: u64) -> Token {
    Token { kind, start, end }
}

// Asserts that the text is cut into these tokens.
fn is_cut(rt: &impl Abort, alloc: Global, text: &str, want: &[Token]) -> Result<(), Fail> {
    let list = tokens(alloc, text)?;
    assert_eq!(rt; list.as_slice(), want, "{text}");
    assert_eq!(rt; list.is_empty(), want.is_empty(), "{text}");
    assert_eq!(rt; list.into_vec().as_slice(), want, "{text}");
    Ok(())
}

#[test]
fn blanks_are_no_tokens(rt: HostRuntime) -> Result<(), Fail> {
    is_cut(&rt, rt.alloc(), "", &[])?;
    is_cut(&rt, rt.alloc(), " \t ", &[])?;
    is_cut(&rt, rt.alloc(), "\t aB_9  ", &[at(Word, 2, 6)])
}

#[test]
fn words_and_numbers_are_cut(rt: HostRuntime) -> Result<(), Fail> {
    let longest = "_23456789_123456789_123456789_123456789_123456789_123456789_123";
    is_cut(&rt, rt.alloc(), longest, &[at(Word, 0, 63)])?;
    let joined = [at(Number, 0, 2), at(Word, 2, 5)];
    is_cut(&rt, rt.alloc(), "12abc", &joined)?;
    let apart = [at(Word, 0, 2), at(Number, 3, 6)];
    is_cut(&rt, rt.alloc(), "a1 007", &apart)
}

#[test]
fn signs_are_as_long_as_they_may(rt: HostRuntime) -> Result<(), Fail> {
    let joined = [
        at(Sign, 0, 2),
        at(Sign, 2, 4),
        at(Sign, 4, 6),
        at(Sign, 6, 7),
    ];
    is_cut(&rt, rt.alloc(), "<=>=<><", &joined)?;
    let apart = [
        at(Sign, 0, 1),
        at(Sign, 2, 3),
        at(Sign, 4, 5),
        at(Sign, 5, 6),
    ];
    is_cut(&rt, rt.alloc(), "< = ><", &apart)
}

#[test]
fn texts_are_cut(rt: HostRuntime) -> Result<(), Fail> {
    is_cut(&rt, rt.alloc(), "''", &[at(Quoted, 0, 2)])?;
    let doubled = [at(Quoted, 0, 7), at(Quoted, 8, 12), at(Word, 13, 14)];
    is_cut(&rt, rt.alloc(), "'it''s' '''' x", &doubled)?;
    let wide = [
        at(Sign, 0, 1),
        at(Quoted, 1, 9),
        at(Sign, 9, 10),
        at(Number, 10, 11),
    ];
    is_cut(&rt, rt.alloc(), "='né€'-1", &wide)
}

#[test]
fn the_first_fault_counts(rt: HostRuntime) -> Result<(), Fail> {
    let too_long = "a _23456789_123456789_123456789_123456789_123456789_123456789_1234 ?";
    let cases = [
        ("?", 0),
        ("a\tb \"c\"", 4),
        ("a\nb", 1),
        ("a\r", 1),
        ("x > 'é' é", 9),
        ("1+1 $", 1),
        ("a != b", 2),
        ("'abc", 0),
        ("k = 'abc''", 4),
        ("'", 0),
        ("'''", 0),
        ("'a\nb'", 0),
        ("b 'ok' 'a\n' $", 7),
        (too_long, 2),
    ];
    for (text, at) in cases {
        assert_eq!(rt;
            tokens(rt.alloc(), text).err(),
            Some(LexFault::Bad { at }),
            "{text}"
        );
    }
    Ok(())
}

#[test]
fn words_have_values(rt: HostRuntime) -> Result<(), Fail> {
    for (word, name) in [("SELECT", "select"), ("aZ_09", "az_09"), ("", "")] {
        let small = lowered(rt.alloc(), word.as_bytes())?;
        assert_eq!(rt; small.as_slice(), name.as_bytes(), "{word}");
    }
    Ok(())
}

// Asserts that the quoted text is one token, and stands for this.
fn is_quoted(rt: &impl Abort, alloc: Global, quoted: &str, want: &str) -> Result<(), Fail> {
    let list = tokens(alloc, quoted)?;
    assert_eq!(rt; list.len(), 1, "{quoted}");
    for token in list.as_slice() {
        if token.kind == Quoted {
            let text = unquoted(alloc, token.bytes(quoted))?;
            assert_eq!(rt; text.as_slice(), want.as_bytes(), "{quoted}");
        }
    }
    Ok(())
}

#[test]
fn texts_have_values(rt: HostRuntime) -> Result<(), Fail> {
    is_quoted(&rt, rt.alloc(), "''", "")?;
    is_quoted(&rt, rt.alloc(), "'it''s'", "it's")?;
    is_quoted(&rt, rt.alloc(), "''''''", "''")?;
    is_quoted(&rt, rt.alloc(), "'né \t€'", "né \t€")
}

#[test]
fn a_long_text_takes_one_pass(rt: HostRuntime) -> Result<(), Fail> {
    let mut text = String::new(rt.alloc());
    for _ in 0..16_384 {
        text.push_str("a,1 ")?;
    }
    assert_eq!(rt; tokens(rt.alloc(), text.as_str())?.len(), 49_152);
    Ok(())
}
