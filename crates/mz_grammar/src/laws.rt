//! Laws of the grammar. Each stands on a function that does nothing.
ghost use Rattle.std.specs.Prelude.{ℕ, List};
ghost use Rattle.mz_statement.specs.declared.statement.Statement.{Statement};
ghost use Rattle.mz_statement.specs.Statement.{IsStatement};
ghost use Rattle.mz_grammar.specs.Grammar.{IsSpelling};

/// What a text spells is a statement that the grammar can spell.
pub fn spelled_is_statement()
    ensures { (text : List ℕ) (s : Statement) → IsSpelling text s → IsStatement s }
{}
