//! Readers of literals and conditions.
ghost use Rattle.std.specs.Prelude.{◌≡◌, ◌^◌, true, IfOk, length, nat_le, nat_lt, if◌then◌else◌, Some, None};
ghost use Rattle.mz_statement.specs.Test.{is_normal};
ghost use Rattle.mz_parse.specs.Reading.{Gives, negative_at, plain_at, literal_at, side_at, op_of, op_at, comparison_at, listed, conjunction_at, disjunction_at, atom_at, condition_at, where_at};
ghost use Rattle.mz_grammar.specs.Joined.{conjuncts, disjuncts, all_of, any_of};
ghost use Rattle.mz_grammar.specs.declared.key.Key.TheVariants as k;

use crate::fault::{Fault, ReadError};
use crate::reading::{Read, column, expect, stuck};
use mz_grammar::{Digits, Key, Tok, after};
use mz_statement::{Condition, GREATEST_DEPTH, LONGEST_TEXT, Op, Side, Test};
use mz_value::Datum;
use sqlite_items::{Boxed, Items};
use std::alloc::{AllocError, Global};

// The greatest INT.
const GREATEST_INT: u64 = i32::MAX as u64;

/// The fault at a literal that is out of range, which stands first. Takes no memory.
pub fn out_of_range(tokens: &[Tok]) -> ReadError
    ensures { result ≡ ReadError.Fault (Fault.Range (length tokens.now)) }
{
    ReadError::Fault(Fault::Range(tokens.len() as u64))
}

// The number, where it is so great at most.
fn number_up_to(digits: &Digits, most: u64) -> Option<u64>
    ensures { result ≡ (if nat_le digits.now most then Some digits.now else None) }
{
    match digits.value() {
        Some(number) if number <= most => Some(number),
        _ => None,
    }
}

// The number whose digits stand behind a minus.
fn negative<'a>(tokens: &'a [Tok<'a>]) -> Read<'a, Datum>
    ensures { Gives (λ x. (x.0, x.1.now)) result (negative_at tokens.now) }
{
    match tokens {
        [first, rest @ ..] => match first {
            Tok::Number(digits) => match number_up_to(digits, GREATEST_INT + 1) {
                Some(number) => Ok((Datum::Int((-(number as i64)) as i32), rest)),
                None => Err(out_of_range(tokens)),
            },
            _ => Err(stuck(tokens)),
        },
        [] => Err(stuck(tokens)),
    }
}

// A literal without a minus.
fn plain<'a>(alloc: Global, tokens: &'a [Tok<'a>]) -> Read<'a, Datum>
    ensures { Gives (λ x. (x.0, x.1.now)) result (plain_at tokens.now) }
{
    match tokens {
        [first, rest @ ..] => match first {
            Tok::Number(digits) => match number_up_to(digits, GREATEST_INT) {
                Some(number) => Ok((Datum::Int(number as i32), rest)),
                None => Err(out_of_range(tokens)),
            },
            Tok::Text(quote) => {
                let text = quote.text(alloc)?;
                if text.as_str().len() <= LONGEST_TEXT {
                    Ok((Datum::Text(text), rest))
                } else {
                    Err(out_of_range(tokens))
                }
            }
            Tok::Key(Key::True) => Ok((Datum::Bool(true), rest)),
            Tok::Key(Key::False) => Ok((Datum::Bool(false), rest)),
            _ => Err(stuck(tokens)),
        },
        [] => Err(stuck(tokens)),
    }
}

/// A literal.
pub fn literal<'a>(alloc: Global, tokens: &'a [Tok<'a>]) -> Read<'a, Datum>
    ensures { Gives (λ x. (x.0, x.1.now)) result (literal_at tokens.now) }
{
    match after(Key::Minus, tokens) {
        Some(behind) => negative(behind),
        None => plain(alloc, tokens),
    }
}

// What a column is compared with.
fn side<'a>(alloc: Global, tokens: &'a [Tok<'a>]) -> Read<'a, Side>
    ensures { Gives (λ x. (x.0, x.1.now)) result (side_at tokens.now) }
{
    if let [Tok::Name(_), ..] = tokens {
        let (column, rest) = column(alloc, tokens)?;
        return Ok((Side::Column(column), rest));
    }
    let (value, rest) = literal(alloc, tokens)?;
    Ok((Side::Literal(value), rest))
}

// How the token compares, if it does.
fn op_of(token: &Tok) -> Option<Op>
    ensures { result ≡ op_of token.now }
{
    match token {
        Tok::Key(Key::Equal) => Some(Op::Eq),
        Tok::Key(Key::Unequal) => Some(Op::Ne),
        Tok::Key(Key::Less) => Some(Op::Lt),
        Tok::Key(Key::LessEqual) => Some(Op::Le),
        Tok::Key(Key::Greater) => Some(Op::Gt),
        Tok::Key(Key::GreaterEqual) => Some(Op::Ge),
        _ => None,
    }
}

// A sign that compares.
fn op<'a>(tokens: &'a [Tok<'a>]) -> Read<'a, Op>
    ensures { Gives (λ x. (x.0, x.1.now)) result (op_at tokens.now) }
{
    match tokens {
        [first, rest @ ..] => match op_of(first) {
            Some(op) => Ok((op, rest)),
            None => Err(stuck(tokens)),
        },
        [] => Err(stuck(tokens)),
    }
}

// A comparison.
fn comparison<'a>(alloc: Global, tokens: &'a [Tok<'a>]) -> Read<'a, Test>
    ensures { Gives (λ x. (x.0, x.1.now)) result (comparison_at tokens.now) }
{
    let (column, rest) = column(alloc, tokens)?;
    let (op, rest) = op(rest)?;
    let (side, rest) = side(alloc, rest)?;
    Ok((Test::Compare(column, op, side), rest))
}

// The members of a list that is joined by AND, and else the test alone.
#[tactic(auto, unfolding(mz_grammar::specs::Joined::conjuncts))]
fn conjuncts(alloc: Global, test: Test) -> Result<Items<Test>, AllocError>
    ensures { IfOk result (λ members. members ≡ conjuncts test) }
{
    match test {
        Test::All(members) => Ok(members),
        other => {
            let mut alone = Items::new(alloc);
            alone.push(other)?;
            Ok(alone)
        }
    }
}

// The members of a list that is joined by OR, and else the test alone.
#[tactic(auto, unfolding(mz_grammar::specs::Joined::disjuncts))]
fn disjuncts(alloc: Global, test: Test) -> Result<Items<Test>, AllocError>
    ensures { IfOk result (λ members. members ≡ disjuncts test) }
{
    match test {
        Test::Any(members) => Ok(members),
        other => {
            let mut alone = Items::new(alloc);
            alone.push(other)?;
            Ok(alone)
        }
    }
}

// Tests that are joined by AND.
fn all_of(alloc: Global, mut tests: Vec<Test>) -> Result<Test, AllocError>
    ensures { IfOk result (λ test. test ≡ all_of tests.items) }
{
    if tests.len() == 1 {
        return Ok(tests.remove(0));
    }
    let mut joined = Items::new(alloc);
    'tests: for test in tests {
        joined.append(conjuncts(alloc, test)?)?;
    }
    Ok(Test::All(joined))
}

// Tests that are joined by OR.
fn any_of(alloc: Global, mut tests: Vec<Test>) -> Result<Test, AllocError>
    ensures { IfOk result (λ test. test ≡ any_of tests.items) }
{
    if tests.len() == 1 {
        return Ok(tests.remove(0));
    }
    let mut joined = Items::new(alloc);
    'tests: for test in tests {
        joined.append(disjuncts(alloc, test)?)?;
    }
    Ok(Test::Any(joined))
}

// A comparison, a NOT or a parenthesis, with so many that may still be opened.
#[cycle(condition)]
fn atom<'a>(alloc: Global, depth: u64, tokens: &'a [Tok<'a>]) -> Read<'a, Test>
    ensures { Gives (λ x. (x.0, x.1.now)) result (atom_at depth tokens.now) }
{
    if depth == 0 {
        return comparison(alloc, tokens);
    }
    if let Some(rest) = after(Key::Not, tokens) {
        let (test, rest) = atom(alloc, depth - 1, rest)?;
        return Ok((Test::Not(Boxed::new(alloc, test)?), rest));
    }
    if let Some(rest) = after(Key::Open, tokens) {
        let (test, rest) = disjunction(alloc, depth - 1, rest)?;
        return Ok((test, expect(Key::Close, rest)?));
    }
    comparison(alloc, tokens)
}

// One test or more with AND between.
#[cycle(condition)]
fn atoms<'a>(alloc: Global, depth: u64, tokens: &'a [Tok<'a>]) -> Read<'a, Vec<Test>>
    ensures { Gives (λ x. (x.0.items, x.1.now)) result (listed k.And (atom_at depth) tokens.now) }
{
    let mut list = Vec::new(alloc);
    let (first, mut rest) = atom(alloc, depth, tokens)?;
    list.push(first)?;
    'members: for _ in 0..rest.len() {
        let Some(next) = after(Key::And, rest) else {
            return Ok((list, rest));
        };
        let (member, behind) = atom(alloc, depth, next)?;
        list.push(member)?;
        rest = behind;
    }
    Ok((list, rest))
}

// Tests that are joined by AND.
#[cycle(condition)]
fn conjunction<'a>(alloc: Global, depth: u64, tokens: &'a [Tok<'a>]) -> Read<'a, Test>
    ensures { Gives (λ x. (x.0, x.1.now)) result (conjunction_at (atom_at depth) tokens.now) }
{
    let (tests, rest) = atoms(alloc, depth, tokens)?;
    Ok((all_of(alloc, tests)?, rest))
}

// One conjunction or more with OR between.
#[cycle(condition)]
fn conjunctions<'a>(alloc: Global, depth: u64, tokens: &'a [Tok<'a>]) -> Read<'a, Vec<Test>>
    ensures { Gives (λ x. (x.0.items, x.1.now)) result
        (listed k.Or (conjunction_at (atom_at depth)) tokens.now) }
{
    let mut list = Vec::new(alloc);
    let (first, mut rest) = conjunction(alloc, depth, tokens)?;
    list.push(first)?;
    'members: for _ in 0..rest.len() {
        let Some(next) = after(Key::Or, rest) else {
            return Ok((list, rest));
        };
        let (member, behind) = conjunction(alloc, depth, next)?;
        list.push(member)?;
        rest = behind;
    }
    Ok((list, rest))
}

// Tests that are joined by OR.
#[cycle(condition)]
fn disjunction<'a>(alloc: Global, depth: u64, tokens: &'a [Tok<'a>]) -> Read<'a, Test>
    ensures { Gives (λ x. (x.0, x.1.now)) result (disjunction_at (atom_at depth) tokens.now) }
{
    let (tests, rest) = conjunctions(alloc, depth, tokens)?;
    Ok((any_of(alloc, tests)?, rest))
}

// A test in which no more NOTs and parentheses are open at once than may be.
fn test<'a>(alloc: Global, tokens: &'a [Tok<'a>]) -> Read<'a, Test>
    ensures { Gives (λ x. (x.0, x.1.now)) result (condition_at tokens.now) }
{
    disjunction(alloc, GREATEST_DEPTH, tokens)
}

// A condition.
fn condition<'a>(alloc: Global, tokens: &'a [Tok<'a>]) -> Read<'a, Condition>
    ensures { Gives (λ x. (x.0, x.1.now)) result (condition_at tokens.now) }
{
    let (test, rest) = test(alloc, tokens)?;
    Ok((Condition::new(test), rest))
}

/// A condition behind WHERE, where WHERE stands first.
pub fn where_test<'a>(alloc: Global, tokens: &'a [Tok<'a>]) -> Read<'a, Option<Condition>>
    ensures { Gives (λ x. (x.0, x.1.now)) result (where_at tokens.now) }
{
    match after(Key::Where, tokens) {
        Some(rest) => {
            let (condition, rest) = condition(alloc, rest)?;
            Ok((Some(condition), rest))
        }
        None => Ok((None, tokens)),
    }
}
