//! Laws of the grammar. Each stands on a function that does nothing.
ghost use Rattle.std.specs.Prelude.{◌≡◌, List};
ghost use Rattle.mz_statement.specs.declared.statement.Statement.{Statement};
ghost use Rattle.mz_grammar.specs.declared.token.Tok.{Tok};
ghost use Rattle.mz_grammar.specs.Grammar.{Spells};

/// Tokens spell one statement at most.
pub fn one_statement()
    ensures { (ts : List Tok) (one two : Statement) → Spells ts one → Spells ts two
        → one ≡ two }
{}
