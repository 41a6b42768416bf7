//! Tokens with what they stand for, read off the grammar by hand.

use mz_grammar::{Key, Tok, after, toks};
use mz_lex::tokens;
use std::alloc::Global;
use std::test::Fail;

// What the tokens are, a word each.
fn seen(alloc: Global, list: &[Tok]) -> Result<String, Fail> {
    let mut seen = String::new(alloc);
    for tok in list {
        match tok {
            Tok::Key(Key::Select) => seen.push_str("select ")?,
            Tok::Key(Key::LessEqual) => seen.push_str("<= ")?,
            Tok::Key(Key::Unequal) => seen.push_str("<> ")?,
            Tok::Key(Key::GreaterEqual) => seen.push_str(">= ")?,
            Tok::Key(Key::Minus) => seen.push_str("- ")?,
            Tok::Key(_) => seen.push_str("key ")?,
            Tok::Name(word) => {
                let name = word.name(alloc)?;
                let name = name.as_str();
                write!(seen, "name {name} ")?;
            }
            Tok::Number(digits) => match digits.value() {
                Some(number) => write!(seen, "number {number} ")?,
                None => seen.push_str("great ")?,
            },
            Tok::Text(quote) => {
                let text = quote.text(alloc)?;
                let text = text.as_str();
                write!(seen, "text {text} ")?;
            }
        }
    }
    Ok(seen)
}

#[test]
fn tokens_stand_for_keys_names_numbers_and_texts(rt: HostRuntime) -> Result<(), Fail> {
    let text = "sElEcT Ab_1 007 'it''s'<=<> >= -18446744073709551616 COUNT fRom";
    let cut = tokens(rt.alloc(), text).expect(&rt, "the text is cut");
    let list = toks(rt.alloc(), text, cut.as_slice())?;
    let seen = seen(rt.alloc(), list.as_slice())?;
    assert_eq!(rt;
        seen.as_str(),
        "select name ab_1 number 7 text it's <= <> >= - great name count key "
    );
    let behind = after(Key::Select, list.as_slice());
    assert_eq!(rt; behind.map(|rest| rest.len()), Some(10));
    let none = after(Key::From, list.as_slice());
    assert!(rt; none.is_none());
    Ok(())
}
