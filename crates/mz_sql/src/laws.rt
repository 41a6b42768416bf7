//! Laws of texts and statements. Each stands on a function that does nothing.
ghost use Rattle.std.specs.Prelude.{◌≡◌, ◌≢◌, ℕ, List};
ghost use Rattle.mz_statement.specs.declared.statement.Statement.{Statement};
ghost use Rattle.mz_statement.specs.Statement.{IsStatement};
ghost use Rattle.mz_grammar.specs.declared.asked.Asked.{Asked};
ghost use Rattle.mz_grammar.specs.Asked.{IsAsked};
ghost use Rattle.mz_grammar.specs.Grammar.{IsSpelling};
ghost use Rattle.mz_grammar.specs.Faults.{IsParseFault};
ghost use Rattle.mz_grammar.specs.declared.fault.ParseFault.{ParseFault};
ghost use Rattle.mz_print.specs.Print.{print_of};
ghost use Rattle.mz_sql.specs.Asked.{asked};

/// Each text has what it asks for.
pub fn each_text_asks()
    ensures { (text : List ℕ) → IsAsked text (asked text) }
{}

/// A text asks for one thing alone.
pub fn a_text_asks_once()
    ensures { (text : List ℕ) (one other : Asked) → IsAsked text one → IsAsked text other
        → one ≡ other }
{}

/// What is printed of a statement within the limits spells it.
pub fn printed_is_spelled()
    ensures { (statement : Statement) → IsStatement statement
        → IsSpelling (print_of statement) statement }
{}

/// A text spells one statement at most.
pub fn one_statement()
    ensures { (text : List ℕ) (one other : Statement) → IsSpelling text one
        → IsSpelling text other → one ≡ other }
{}

/// A text has one fault at most, of one kind and at one place, want of memory aside.
pub fn one_fault()
    ensures { (text : List ℕ) (one two : ParseFault) → IsParseFault text one
        → IsParseFault text two → one ≢ ParseFault.Memory → two ≢ ParseFault.Memory
        → one ≡ two }
{}

/// A text that spells a statement has no fault, want of memory aside.
pub fn no_fault()
    ensures { (text : List ℕ) (statement : Statement) (fault : ParseFault)
        → IsSpelling text statement → IsParseFault text fault → fault ≡ ParseFault.Memory }
{}
