//! Laws of the definitions. Each stands on a function that does nothing.

ghost use Rattle.std.specs.Prelude.{◌≡◌, ℕ, List, ◌⊎◌};
ghost use Rattle.mz_lex.specs.declared.token.Token.{Token};
ghost use Rattle.mz_lex.specs.Cut.{IsCutInto};
ghost use Rattle.mz_lex.specs.Fault.{IsFirstFault};
ghost use Rattle.mz_lex.specs.Quoted.{quoted, unquoted};

/// A text is cut into tokens in one way at most.
pub fn one_cut()
    ensures { (text : List ℕ) (ts us : List Token) → IsCutInto text ts → IsCutInto text us
        → ts ≡ us }
{}

/// A text has one first fault at most.
pub fn one_fault()
    ensures { (text : List ℕ) (one two : ℕ) → IsFirstFault text one → IsFirstFault text two
        → one ≡ two }
{}

/// A text that is cut into tokens has no fault.
pub fn not_both()
    ensures { (text : List ℕ) (ts : List Token) (at : ℕ) → IsCutInto text ts
        → IsFirstFault text at → ⊥ }
{}

/// A text is cut into tokens or has a first fault.
pub fn cut_or_fault()
    ensures { (text : List ℕ) → ((ts : List Token) × IsCutInto text ts)
        ⊎ ((at : ℕ) × IsFirstFault text at) }
{}

/// The text in quotes is the text that was quoted.
pub fn unquoting()
    ensures { (text : List ℕ) → unquoted (quoted text) ≡ text }
{}
