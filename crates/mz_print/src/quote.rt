//! Texts in quotes.
ghost use Rattle.std.specs.Prelude.{◌≡◌, ◌<◌, ◌++◌, ◌∷◌, length, OnOk, IfSome, MatchOption, string_bytes};
ghost use Rattle.std.specs.List.{flat_map};
ghost use Rattle.mz_lex.specs.Quoted.{doubled, quoted};

use std::alloc::AllocError;

// What stands before the first quote of a text and what stands behind it, if there is one.
fn at_quote(text: &str) -> Option<(&str, &str)>
    ensures parts { MatchOption result (flat_map doubled text.now ≡ text.now)
        (λ parts. flat_map doubled text.now
        ≡ parts.0.now ++ (39 ∷ 39 ∷ flat_map doubled parts.1.now)) }
    ensures less { IfSome result (λ parts. length parts.1.now < length text.now) }
{
    text.split_once('\'')
}

// Adds the text, with each quote in it doubled.
fn push_doubled(to: &mut String, text: &str) -> Result<(), AllocError>
    ensures { OnOk result (string_bytes to.new
        ≡ string_bytes to.old ++ flat_map doubled text.now) }
{
    let mut rest = text;
    'quotes: while let Some(parts) = at_quote(rest) {
        let (before, behind) = parts;
        to.push_str(before)?;
        to.push_str("''")?;
        rest = behind;
    }
    to.push_str(rest)
}

/// Adds the text in single quotes, with each quote in it doubled: a literal of the dialect, if the text is one line.
///
/// The time and the memory grow with the text. An `Err` leaves a part of it.
pub fn push_quoted(to: &mut String, text: &str) -> Result<(), AllocError>
    ensures { OnOk result (string_bytes to.new ≡ string_bytes to.old ++ quoted text.now) }
{
    to.push_str("'")?;
    push_doubled(to, text)?;
    to.push_str("'")
}
