//! A text that grows piece by piece.
ghost use Rattle.std.specs.Prelude.{◌≡◌, ◌++◌, [], ◌∷◌, List, false, OnOk, string_bytes};
ghost use Rattle.mz_print.specs.Piece.{Piece, Fixed, Word, Name, Number, Text, printed, edge, hugs, opens, is_spaced, space, text_of, capitals, is_call};
ghost use Rattle.mz_print.specs.Writer.{written};

use crate::quote::push_quoted;
use crate::word::{Edge, Unreserved};
use mz_grammar::{Key, spelling};
use std::alloc::{AllocError, Global};

/// A text that is being written, and how the next piece may join it.
#[derive(Drop)]
pub struct Writer {
    text: String,
    edge: Edge,
}

// Whether no space stands before the key.
fn hugs(key: Key) -> bool
    ensures { result ≡ hugs (Fixed key) }
{
    matches!(key, Key::Close | Key::Comma | Key::Dot)
}

// Whether the key is an opening parenthesis.
fn opens(key: Key) -> bool
    ensures { result ≡ opens (Fixed key) }
{
    matches!(key, Key::Open)
}

// How the next piece may join the key.
fn edge_behind(key: Key) -> Edge
    ensures { result ≡ edge (Fixed key) }
{
    match key {
        Key::Open | Key::Dot | Key::Minus => Edge::Tight,
        _ => Edge::Loose,
    }
}

// Whether a space stands before the key, behind such an edge.
fn is_key_spaced(edge: Edge, key: Key) -> bool
    ensures { result ≡ is_spaced edge (Fixed key) }
{
    match edge {
        Edge::Tight => false,
        Edge::Call => !(hugs(key) || opens(key)),
        Edge::Loose => !hugs(key),
    }
}

// Whether a space stands before a piece that is no key, behind such an edge.
fn is_spaced(edge: Edge) -> bool
    ensures { (piece : Piece) → hugs piece ≡ false → opens piece ≡ false
        → is_spaced edge piece ≡ result }
{
    match edge {
        Edge::Tight => false,
        Edge::Call => true,
        Edge::Loose => true,
    }
}

// How the word is printed.
fn capitals(word: Unreserved) -> &'static str
    ensures { result.now ≡ capitals word }
{
    match word {
        Unreserved::Int => "INT",
        Unreserved::Text => "TEXT",
        Unreserved::Bool => "BOOL",
        Unreserved::Wide => "WIDE",
        Unreserved::Lag => "LAG",
        Unreserved::Stay => "STAY",
        Unreserved::Frontiers => "FRONTIERS",
        Unreserved::Set => "SET",
        Unreserved::Isolation => "ISOLATION",
        Unreserved::Strict => "STRICT",
        Unreserved::Session => "SESSION",
        Unreserved::Cluster => "CLUSTER",
        Unreserved::Count => "COUNT",
        Unreserved::Sum => "SUM",
        Unreserved::Min => "MIN",
        Unreserved::Max => "MAX",
    }
}

// How the next piece may join the word.
fn edge_behind_word(word: Unreserved) -> Edge
    ensures { result ≡ edge (Word word) }
{
    match word {
        Unreserved::Count | Unreserved::Sum | Unreserved::Min | Unreserved::Max => Edge::Call,
        _ => Edge::Loose,
    }
}

// Adds a space, or none.
fn push_space(to: &mut String, is_there: bool) -> Result<(), AllocError>
    ensures { OnOk result (string_bytes to.new ≡ string_bytes to.old ++ space is_there) }
{
    if is_there { to.push_str(" ") } else { Ok(()) }
}

impl Writer {
    /// A writer that has written nothing. Takes no memory.
    #[tactic(auto, unfolding(crate::specs::Writer::written))]
    pub fn new(alloc: Global) -> Writer
        ensures { (rest : List Piece) → written result rest ≡ text_of rest }
    {
        Writer {
            text: String::new(alloc),
            edge: Edge::Tight,
        }
    }

    /// The text. Takes no memory.
    #[tactic(auto, unfolding(crate::specs::Writer::written))]
    pub fn into_string(self) -> String
        ensures { string_bytes result ≡ written self [] }
    {
        self.text
    }

    // Adds a piece that is printed so, with the space before it that is due.
    #[tactic(auto, using(crate::proofs::Writing::next_written))]
    fn push(&mut self, spaced: bool, text: &str, behind: Edge) -> Result<(), AllocError>
        ensures { OnOk result ((piece : Piece) → is_spaced self.old.edge piece ≡ spaced
            → printed piece ≡ text.now → edge piece ≡ behind
            → (rest : List Piece) → written self.new rest ≡ written self.old (piece ∷ rest)) }
    {
        push_space(&mut self.text, spaced)?;
        self.text.push_str(text)?;
        self.edge = behind;
        Ok(())
    }

    /// Adds a key.
    pub fn key(&mut self, key: Key) -> Result<(), AllocError>
        ensures { OnOk result ((rest : List Piece)
            → written self.new rest ≡ written self.old (Fixed key ∷ rest)) }
    {
        self.push(
            is_key_spaced(self.edge, key),
            spelling(key),
            edge_behind(key),
        )
    }

    /// Adds a word that the grammar names without reserving it.
    pub fn word(&mut self, word: Unreserved) -> Result<(), AllocError>
        ensures { OnOk result ((rest : List Piece)
            → written self.new rest ≡ written self.old (Word word ∷ rest)) }
    {
        self.push(is_spaced(self.edge), capitals(word), edge_behind_word(word))
    }

    /// Adds a name.
    pub fn name(&mut self, name: &str) -> Result<(), AllocError>
        ensures { OnOk result ((rest : List Piece)
            → written self.new rest ≡ written self.old (Name name.now ∷ rest)) }
    {
        self.push(is_spaced(self.edge), name, Edge::Loose)
    }

    /// Adds a number.
    pub fn number(&mut self, number: u128) -> Result<(), AllocError>
        ensures { OnOk result ((rest : List Piece)
            → written self.new rest ≡ written self.old (Number number ∷ rest)) }
    {
        push_space(&mut self.text, is_spaced(self.edge))?;
        write!(self.text, "{number}")?;
        self.edge = Edge::Loose;
        Ok(())
    }

    /// Adds a text, in quotes.
    pub fn text(&mut self, text: &str) -> Result<(), AllocError>
        ensures { OnOk result ((rest : List Piece)
            → written self.new rest ≡ written self.old (Text text.now ∷ rest)) }
    {
        push_space(&mut self.text, is_spaced(self.edge))?;
        push_quoted(&mut self.text, text)?;
        self.edge = Edge::Loose;
        Ok(())
    }
}
