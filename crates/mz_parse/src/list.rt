//! One reader of lists, over what reads a member.
ghost use Rattle.std.specs.Prelude.{◌≡◌, List};
ghost use Rattle.mz_grammar.specs.declared.token.Tok.{Tok as AToken};
ghost use Rattle.mz_parse.specs.Reading.{Gives, listed, Read as Reading};

use crate::reading::Read;
use mz_grammar::{Key, Tok, after};
use std::alloc::Global;

/// What reads a member of a list.
pub trait Reader<T> {
    ghost reads: { Self → List AToken → Reading T };

    /// A member, and the tokens behind it.
    fn read<'a>(&self, alloc: Global, tokens: &'a [Tok<'a>]) -> Read<'a, T>
        ensures { Gives (λ x. (x.0, x.1.now)) result (reads self.now tokens.now) };
}

/// One member or more with the key between.
pub fn listed<'a, T: Drop, R: Reader<T>>(
    alloc: Global,
    key: Key,
    reader: &R,
    tokens: &'a [Tok<'a>],
) -> Read<'a, Vec<T>>
    ensures { Gives (λ x. (x.0.items, x.1.now)) result
        (listed key (R.reads reader.now) tokens.now) }
{
    let mut list = Vec::new(alloc);
    let (first, mut rest) = reader.read(alloc, tokens)?;
    list.push(first)?;
    'members: for _ in 0..rest.len() {
        let Some(next) = after(key, rest) else {
            return Ok((list, rest));
        };
        let (member, behind) = reader.read(alloc, next)?;
        list.push(member)?;
        rest = behind;
    }
    Ok((list, rest))
}
