//! Conditions, as they are printed.
ghost use Rattle.std.specs.Prelude.{◌≡◌, ◌&&◌, ◌||◌, ◌∷◌, List, OnOk};
ghost use Rattle.mz_statement.specs.Test.{is_all, is_any};
ghost use Rattle.mz_grammar.specs.Grammar.{op_key};
ghost use Rattle.mz_print.specs.Piece.{Piece, Fixed};
ghost use Rattle.mz_print.specs.Print.{print_side, closed_in, joining, print_test, print_where};
ghost use Rattle.mz_print.specs.Joined.{print_joined, print_member};
ghost use Rattle.mz_print.specs.Writer.{written};

use crate::list::Print;
use crate::writer::Writer;
use mz_grammar::Key;
use mz_statement::{Condition, Op, Side, Test};
use std::alloc::AllocError;

// The sign of a comparison.
fn op_key(op: Op) -> Key
    ensures { result ≡ op_key op }
{
    match op {
        Op::Eq => Key::Equal,
        Op::Ne => Key::Unequal,
        Op::Lt => Key::Less,
        Op::Le => Key::LessEqual,
        Op::Gt => Key::Greater,
        Op::Ge => Key::GreaterEqual,
    }
}

// Adds what a column is compared with.
fn print_side(out: &mut Writer, side: &Side) -> Result<(), AllocError>
    ensures { OnOk result ((rest : List Piece)
        → written out.new rest ≡ written out.old (print_side side.now rest)) }
{
    match side {
        Side::Column(column) => column.print(out),
        Side::Literal(value) => value.print(out),
    }
}

// Adds the word that joins tests.
fn print_joining(out: &mut Writer, by_and: bool) -> Result<(), AllocError>
    ensures { OnOk result ((rest : List Piece)
        → written out.new rest ≡ written out.old (joining by_and ∷ rest)) }
{
    if by_and {
        out.key(Key::And)
    } else {
        out.key(Key::Or)
    }
}

// Whether the test is a list.
fn is_list(test: &Test) -> bool
    ensures { result ≡ (is_all test.now || is_any test.now) }
{
    test.is_all() || test.is_any()
}

// Adds a test, in parentheses or without.
#[cycle(tests)]
fn print_closed(out: &mut Writer, is_closed: bool, test: &Test) -> Result<(), AllocError>
    ensures { OnOk result ((rest : List Piece) → written out.new rest
        ≡ written out.old (closed_in is_closed (print_test test.now) rest)) }
{
    if !is_closed {
        return print_test(out, test);
    }
    out.key(Key::Open)?;
    print_test(out, test)?;
    out.key(Key::Close)
}

// Adds tests that are joined by AND, or else by OR.
#[cycle(tests)]
fn print_joined(out: &mut Writer, by_and: bool, tests: &[Test]) -> Result<(), AllocError>
    ensures { OnOk result ((rest : List Piece)
        → written out.new rest ≡ written out.old (print_joined by_and tests.now rest)) }
{
    let [first, others @ ..] = tests else {
        return Ok(());
    };
    print_closed(out, by_and && first.is_any(), first)?;
    'others: for test in others {
        print_joining(out, by_and)?;
        print_closed(out, by_and && test.is_any(), test)?;
    }
    Ok(())
}

// Adds a test.
#[cycle(tests)]
#[tactic(auto, using(crate::proofs::PrintRules::print_rules))]
fn print_test(out: &mut Writer, test: &Test) -> Result<(), AllocError>
    ensures { OnOk result ((rest : List Piece)
        → written out.new rest ≡ written out.old (print_test test.now rest)) }
{
    match test {
        Test::All(tests) => print_joined(out, true, tests.as_slice()),
        Test::Any(tests) => print_joined(out, false, tests.as_slice()),
        Test::Not(test) => {
            let test = test.get();
            out.key(Key::Not)?;
            print_closed(out, is_list(test), test)
        }
        Test::Compare(column, op, side) => {
            column.print(out)?;
            out.key(op_key(*op))?;
            print_side(out, side)
        }
    }
}

/// Adds WHERE and the condition, where there is one. The recursion is as deep as the condition.
pub fn print_where(out: &mut Writer, condition: &Option<Condition>) -> Result<(), AllocError>
    ensures { OnOk result ((rest : List Piece)
        → written out.new rest ≡ written out.old (print_where condition.now rest)) }
{
    match condition {
        None => Ok(()),
        Some(condition) => {
            out.key(Key::Where)?;
            print_test(out, condition.test())
        }
    }
}
