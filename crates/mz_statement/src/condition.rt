//! Conditions on rows, as trees.
ghost use Rattle.std.specs.Prelude.{◌≡◌, ◌&&◌, IfOk, true, nat_le};
ghost use Rattle.std.specs.List.{list_all};
ghost use Rattle.std.specs.Bool.{Decides};
ghost use Rattle.std.specs.Cmp.{partial_equiv_from_equiv};
ghost use Rattle.mz_statement.specs.Same.{same_test};
ghost use Rattle.mz_statement.specs.SameLaws.{same_test_equiv};
ghost use Rattle.mz_statement.specs.Test.{is_all, is_any, is_joined, is_normal, is_member, depth, closed_depth, deepest_of};

use crate::ColumnName;
use mz_value::{Datum, TryCopy};
use sqlite_items::{Boxed, Items};
use std::alloc::{AllocError, Global};
use std::marker::Model;

/// How a column is compared.
#[derive(Clone, Copy, Debug, PartialEq, Eq)]
pub enum Op {
    /// `=`
    Eq,
    /// `<>`
    Ne,
    /// `<`
    Lt,
    /// `<=`
    Le,
    /// `>`
    Gt,
    /// `>=`
    Ge,
}

/// What a column is compared with.
#[derive(Debug, PartialEq, Eq, Drop)]
pub enum Side {
    /// Another column.
    Column(ColumnName),
    /// A value as it is written.
    Literal(Datum),
}

impl Side {
    /// A copy of the side.
    pub fn try_copy(&self, alloc: Global) -> Result<Side, AllocError>
        ensures { IfOk result (λ copy. copy ≡ self.now) }
    {
        Ok(match self {
            Side::Column(column) => Side::Column(column.try_copy(alloc)?),
            Side::Literal(value) => Side::Literal(value.try_copy(alloc)?),
        })
    }
}

/// A test of one row.
#[derive(Debug, Drop)]
pub enum Test {
    /// Passes where each of the tests does: they are joined by AND.
    All(Items<Test>),
    /// Passes where one of the tests does: they are joined by OR.
    Any(Items<Test>),
    /// Passes where the test doesn't.
    Not(Boxed<Test>),
    /// Compares a column.
    Compare(ColumnName, Op, Side),
}

// A copy of the tests.
#[cycle(copy)]
fn copied_tests(alloc: Global, tests: &[Test]) -> Result<Vec<Test>, AllocError>
    ensures { IfOk result (λ copy. copy.items ≡ tests.now) }
{
    let mut copy = Vec::with_capacity(alloc, tests.len())?;
    for test in tests {
        copy.push(test.try_copy(alloc)?)?;
    }
    Ok(copy)
}

// Whether the tests are the same, in the same order.
#[cycle(same)]
fn are_same(one: &[Test], other: &[Test]) -> bool
    ensures { Decides result (one.now ≡ other.now) }
{
    let mut rest = other;
    'tests: for test in one {
        match rest {
            [first, others @ ..] if test.is_same(first) => rest = others,
            _ => return false,
        }
    }
    rest.is_empty()
}

// Whether each test may stand in a list that is joined by AND, or else by OR.
#[cycle(normal)]
fn are_members(by_and: bool, tests: &[Test]) -> bool
    ensures { result ≡ list_all (is_member by_and) tests.now }
{
    for test in tests {
        if test.is_joined(by_and) || !test.is_normal() {
            return false;
        }
    }
    true
}

// Whether the tests, joined by AND or else by OR, are no deeper than the limit.
#[cycle(within)]
fn are_within(by_and: bool, tests: &[Test], limit: u64) -> bool
    ensures { result ≡ nat_le (deepest_of by_and tests.now) limit }
{
    for test in tests {
        if !test.is_closed_within(by_and && test.is_any(), limit) {
            return false;
        }
    }
    true
}

impl Test {
    /// Whether the test is a list that is joined by AND. Takes no memory.
    #[tactic(auto, using(crate::proofs::TestRules::word_rules))]
    pub fn is_all(&self) -> bool
        ensures { result ≡ is_all self.now }
    {
        matches!(self, Test::All(_))
    }

    /// Whether the test is a list that is joined by OR. Takes no memory.
    #[tactic(auto, using(crate::proofs::TestRules::word_rules))]
    pub fn is_any(&self) -> bool
        ensures { result ≡ is_any self.now }
    {
        matches!(self, Test::Any(_))
    }

    // Whether the test is a list that is joined by AND, or else by OR.
    fn is_joined(&self, by_and: bool) -> bool
        ensures { result ≡ is_joined by_and self.now }
    {
        if by_and { self.is_all() } else { self.is_any() }
    }

    /// Whether the test is in normal form: each list has two tests or more, and none that is joined
    /// by the same word. It reads the whole test. Takes no memory.
    #[cycle(normal)]
    #[tactic(auto, using(crate::proofs::TestRules::normal_rules))]
    pub fn is_normal(&self) -> bool
        ensures { result ≡ is_normal self.now }
    {
        match self {
            Test::All(tests) => tests.len() >= 2 && are_members(true, tests.as_slice()),
            Test::Any(tests) => tests.len() >= 2 && are_members(false, tests.as_slice()),
            Test::Not(test) => test.get().is_normal(),
            Test::Compare(_, _, _) => true,
        }
    }

    /// Whether no more NOTs and parentheses than the limit are open at once where the test is
    /// printed. It reads the whole test. Takes no memory.
    #[cycle(within)]
    #[tactic(auto, using(crate::proofs::TestRules::depth_rules))]
    pub fn is_within(&self, limit: u64) -> bool
        ensures { result ≡ nat_le (depth self.now) limit }
    {
        match self {
            Test::All(tests) => are_within(true, tests.as_slice(), limit),
            Test::Any(tests) => are_within(false, tests.as_slice(), limit),
            Test::Not(test) => {
                let test = test.get();
                limit > 0 && test.is_closed_within(test.is_all() || test.is_any(), limit - 1)
            }
            Test::Compare(_, _, _) => true,
        }
    }

    // The same of the test with its parentheses, where it has some.
    #[cycle(within)]
    fn is_closed_within(&self, is_closed: bool, limit: u64) -> bool
        ensures { result ≡ nat_le (closed_depth is_closed (depth self.now)) limit }
    {
        if is_closed {
            limit > 0 && self.is_within(limit - 1)
        } else {
            self.is_within(limit)
        }
    }

    // Whether the tests are the same. It reads both. Takes no memory.
    #[cycle(same)]
    fn is_same(&self, other: &Test) -> bool
        ensures { Decides result (self.now ≡ other.now) }
    {
        match (self, other) {
            (Test::All(tests), Test::All(others)) => are_same(tests.as_slice(), others.as_slice()),
            (Test::Any(tests), Test::Any(others)) => are_same(tests.as_slice(), others.as_slice()),
            (Test::Not(test), Test::Not(other)) => test.get().is_same(other.get()),
            (Test::Compare(column, op, side), Test::Compare(other, by, what)) => {
                column == other && op == by && side == what
            }
            _ => false,
        }
    }

    /// A copy of the test.
    #[cycle(copy)]
    pub fn try_copy(&self, alloc: Global) -> Result<Test, AllocError>
        ensures { IfOk result (λ copy. copy ≡ self.now) }
    {
        Ok(match self {
            Test::All(tests) => Test::All(Items::from_vec(copied_tests(alloc, tests.as_slice())?)),
            Test::Any(tests) => Test::Any(Items::from_vec(copied_tests(alloc, tests.as_slice())?)),
            Test::Not(test) => Test::Not(Boxed::new(alloc, test.get().try_copy(alloc)?)?),
            Test::Compare(column, op, side) => {
                Test::Compare(column.try_copy(alloc)?, *op, side.try_copy(alloc)?)
            }
        })
    }
}

impl PartialEq for Test {
    ghost eq = { same_test };

    ghost laws = { partial_equiv_from_equiv same_test_equiv };

    fn eq(&self, other: &Test) -> bool {
        self.is_same(other)
    }
}

impl Eq for Test {
    ghost laws = { same_test_equiv };
}

/// A test in normal form: each list of an `All` or `Any` has two tests or more, and none that is
/// joined by the same word. Contracts see it as its test.
#[derive(Debug, Drop)]
pub struct Condition {
    test: Test,
}

impl Model for Condition {
    ghost use Rattle.std.specs.Prelude.{◌≡◌, true};
    ghost use Rattle.mz_statement.specs.declared.condition.Test.{Test};
    ghost use Rattle.mz_statement.specs.Test.{is_normal};
    ghost use Rattle.mz_statement.specs.contracts.condition.Test as the_test;
    ghost use Rattle.std.specs.Coded.{codes};

    ghost Value = { Test };

    ghost coded = { Prim.hlevel (codes, the_test.the_row.coded) };

    ghost view = { λ c. c.test };

    ghost invariant = { λ c. is_normal c.test ≡ true };
}

impl PartialEq for Condition {
    ghost eq = { same_test };

    ghost laws = { partial_equiv_from_equiv same_test_equiv };

    fn eq(&self, other: &Condition) -> bool {
        self.test == other.test
    }
}

impl Eq for Condition {
    ghost laws = { same_test_equiv };
}

impl Condition {
    /// The condition of a test. Takes no memory.
    pub fn new(test: Test) -> Condition
        requires { is_normal test ≡ true }
        ensures { result ≡ test }
    {
        Condition { test }
    }

    /// The test of the condition. Takes no memory.
    pub fn into_test(self) -> Test
        ensures test { result ≡ self }
        ensures normal { is_normal self ≡ true }
    {
        self.test
    }

    /// The test, as it stands in the condition. Takes no memory.
    pub fn test(&self) -> &Test
        ensures test { result.now ≡ self.now }
        ensures normal { is_normal self.now ≡ true }
    {
        &self.test
    }

    /// A copy of the condition.
    pub fn try_copy(&self, alloc: Global) -> Result<Condition, AllocError>
        ensures { IfOk result (λ copy. copy ≡ self.now) }
    {
        Ok(Condition {
            test: self.test.try_copy(alloc)?,
        })
    }
}
