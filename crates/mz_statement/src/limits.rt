//! Which statements the grammar can spell: the limits of each part, and of the whole.
ghost use Rattle.std.specs.Prelude.{◌≢◌, IfSome};
ghost use Rattle.std.specs.Bool.{Decides};
ghost use Rattle.std.specs.List.{AllByRecursion as Each};
ghost use Rattle.mz_statement.specs.Test.{Compares, IsTest};
ghost use Rattle.mz_statement.specs.Value.{IsInt, IsText};
ghost use Rattle.mz_statement.specs.Statement.{IsTime, IsKeep, IsStatement};

use crate::{
    Column, ColumnName, ColumnPair, ColumnType, Columns, Condition, Expression, Join, Keep, Query,
    Reference, Select, SelectItem, SelectItems, Side, Statement, Test, is_reserved,
};
use mz_value::{Datum, Name, Row, Rows};

/// The most bytes that a text of a statement has.
pub const LONGEST_TEXT: usize = 1024;
/// The most NOTs and parentheses that are open at once in a condition as it is printed.
pub const GREATEST_DEPTH: u64 = 64;
/// How many times a statement may name, from 0 on.
pub const TIMES: u64 = 1 << 63;
/// How many lags there are, with 0, which none may be.
pub const LAGS: u64 = 1 << 32;

// A part of a statement.
trait Limited {
    ghost IsWithin: { Self → Type 0 };

    // Whether the grammar can spell the part.
    fn is_within_limits(&self) -> bool
        ensures { Decides result (IsWithin self.now) };
}

// Whether each of the parts is within its limits.
fn are_within_limits<T: Limited>(parts: &[T]) -> bool
    ensures { Decides result (Each T.IsWithin parts.now) }
{
    for part in parts {
        if !part.is_within_limits() {
            return false;
        }
    }
    true
}

// Whether the part is within its limits, where there is one.
fn is_none_or_within<T: Limited>(part: &Option<T>) -> bool
    ensures { Decides result (IfSome part.now T.IsWithin) }
{
    match part {
        Some(part) => part.is_within_limits(),
        None => true,
    }
}

impl Limited for Name {
    ghost use Rattle.mz_statement.specs.Word.{IsName};

    ghost IsWithin = { IsName };

    fn is_within_limits(&self) -> bool {
        !is_reserved(self.as_bytes())
    }
}

impl Limited for ColumnName {
    ghost use Rattle.mz_statement.specs.Reference.{IsColumnName};

    ghost IsWithin = { IsColumnName };

    fn is_within_limits(&self) -> bool {
        is_none_or_within(&self.qualifier) && self.name.is_within_limits()
    }
}

impl Limited for Reference {
    ghost use Rattle.mz_statement.specs.Reference.{IsReference};

    ghost IsWithin = { IsReference };

    fn is_within_limits(&self) -> bool {
        self.name.is_within_limits() && is_none_or_within(&self.alias)
    }
}

impl Limited for ColumnPair {
    ghost use Rattle.mz_statement.specs.Reference.{IsColumnPair};

    ghost IsWithin = { IsColumnPair };

    fn is_within_limits(&self) -> bool {
        self.left.is_within_limits() && self.right.is_within_limits()
    }
}

impl Limited for Join {
    ghost use Rattle.mz_statement.specs.Reference.{IsJoin};

    ghost IsWithin = { IsJoin };

    fn is_within_limits(&self) -> bool {
        let pairs = self.pairs.as_slice();
        self.reference.is_within_limits() && !pairs.is_empty() && are_within_limits(pairs)
    }
}

impl Limited for Expression {
    ghost use Rattle.mz_statement.specs.Item.{IsExpression};

    ghost IsWithin = { IsExpression };

    fn is_within_limits(&self) -> bool {
        match self {
            Expression::Column(column)
            | Expression::Sum(column)
            | Expression::Min(column)
            | Expression::Max(column) => column.is_within_limits(),
            Expression::Count => true,
        }
    }
}

impl Limited for SelectItem {
    ghost use Rattle.mz_statement.specs.Item.{IsItem};

    ghost IsWithin = { IsItem };

    fn is_within_limits(&self) -> bool {
        self.expression.is_within_limits() && is_none_or_within(&self.alias)
    }
}

impl Limited for SelectItems {
    ghost use Rattle.mz_statement.specs.Query.{AreItems};

    ghost IsWithin = { AreItems };

    fn is_within_limits(&self) -> bool {
        let items = self.as_slice();
        !items.is_empty() && are_within_limits(items)
    }
}

// Each number of 32 bits is one that the grammar can spell.
fn is_int(_number: i32) -> bool
    ensures { Decides result (IsInt _number) }
{
    true
}

impl Limited for Datum {
    ghost use Rattle.mz_statement.specs.Value.{IsLiteral};

    ghost IsWithin = { IsLiteral };

    fn is_within_limits(&self) -> bool {
        match self {
            Datum::Int(number) => is_int(*number),
            Datum::Bool(_) => true,
            Datum::Text(text) => is_text(text.as_str().as_bytes()),
            Datum::Wide(_) => false,
        }
    }
}

impl Limited for Side {
    ghost use Rattle.mz_statement.specs.Test.{IsSide};

    ghost IsWithin = { IsSide };

    fn is_within_limits(&self) -> bool {
        match self {
            Side::Column(column) => column.is_within_limits(),
            Side::Literal(value) => value.is_within_limits(),
        }
    }
}

// Whether the text has one line.
fn is_line(text: &[u8]) -> bool
    ensures { Decides result (Each (λ byte. byte ≢ 10) text.now) }
{
    for byte in text {
        if *byte == b'\n' {
            return false;
        }
    }
    true
}

// Whether the grammar can spell the text.
fn is_text(text: &[u8]) -> bool
    ensures { Decides result (IsText text.now) }
{
    text.len() <= LONGEST_TEXT && is_line(text)
}

// Whether each of the tests compares what the grammar can spell.
#[cycle(compares)]
fn all_compare(tests: &[Test]) -> bool
    ensures { Decides result (Each Compares tests.now) }
{
    for test in tests {
        if !compares(test) {
            return false;
        }
    }
    true
}

// Whether the test compares what the grammar can spell.
#[cycle(compares)]
#[tactic(auto, using(crate::proofs::TestRules::compares_rules))]
fn compares(test: &Test) -> bool
    ensures { Decides result (Compares test.now) }
{
    match test {
        Test::All(tests) => all_compare(tests.as_slice()),
        Test::Any(tests) => all_compare(tests.as_slice()),
        Test::Not(test) => compares(test.get()),
        Test::Compare(column, _, side) => column.is_within_limits() && side.is_within_limits(),
    }
}

impl Limited for Condition {
    ghost IsWithin = { IsTest };

    fn is_within_limits(&self) -> bool {
        let test = self.test();
        test.is_within(GREATEST_DEPTH) && compares(test)
    }
}

impl Limited for Select {
    ghost use Rattle.mz_statement.specs.Query.{IsSelect};

    ghost IsWithin = { IsSelect };

    fn is_within_limits(&self) -> bool {
        is_none_or_within(&self.items)
            && self.first.is_within_limits()
            && are_within_limits(self.joins.as_slice())
            && is_none_or_within(&self.test)
            && are_within_limits(self.group.as_slice())
    }
}

impl Limited for Query {
    ghost use Rattle.mz_statement.specs.Query.{IsQuery};

    ghost IsWithin = { IsQuery };

    fn is_within_limits(&self) -> bool {
        are_within_limits(self.as_slice())
    }
}

impl Limited for Column {
    ghost use Rattle.mz_statement.specs.Statement.{IsColumn};

    ghost IsWithin = { IsColumn };

    fn is_within_limits(&self) -> bool {
        self.kind != ColumnType::Wide && self.name.is_within_limits()
    }
}

impl Limited for Columns {
    ghost use Rattle.mz_statement.specs.Statement.{AreColumns};

    ghost IsWithin = { AreColumns };

    fn is_within_limits(&self) -> bool {
        let columns = self.as_slice();
        !columns.is_empty() && are_within_limits(columns)
    }
}

impl Limited for Row {
    ghost use Rattle.mz_statement.specs.Value.{IsTuple};

    ghost IsWithin = { IsTuple };

    fn is_within_limits(&self) -> bool {
        let values = self.as_slice();
        !values.is_empty() && are_within_limits(values)
    }
}

impl Limited for Rows {
    ghost use Rattle.mz_statement.specs.Statement.{AreTuples};

    ghost IsWithin = { AreTuples };

    fn is_within_limits(&self) -> bool {
        let rows = self.as_slice();
        !rows.is_empty() && are_within_limits(rows)
    }
}

// Whether a statement may name the time.
fn is_time(time: u64) -> bool
    ensures { Decides result (IsTime time) }
{
    time < TIMES
}

impl Limited for Keep {
    ghost IsWithin = { IsKeep };

    fn is_within_limits(&self) -> bool {
        match self {
            Keep::Lag(lag) => 1 <= *lag && *lag < LAGS,
            Keep::From(time) => is_time(*time),
            Keep::Stay => true,
        }
    }
}

// Whether a statement may name the time, where there is one.
fn is_none_or_time(time: Option<u64>) -> bool
    ensures { Decides result (IfSome time IsTime) }
{
    match time {
        Some(time) => is_time(time),
        None => true,
    }
}

impl Statement {
    /// Whether the grammar can spell the statement. It reads the whole statement. Takes no memory.
    pub fn is_statement(&self) -> bool
        ensures { Decides result (IsStatement self.now) }
    {
        match self {
            Statement::Query(query, as_of) => query.is_within_limits() && is_none_or_time(*as_of),
            Statement::CreateTable(name, columns) => {
                name.is_within_limits() && columns.is_within_limits()
            }
            Statement::CreateView(name, query) => {
                name.is_within_limits() && query.is_within_limits()
            }
            Statement::CreateIndex(name, on) => name.is_within_limits() && on.is_within_limits(),
            Statement::DropTable(name) => name.is_within_limits(),
            Statement::DropView(name) => name.is_within_limits(),
            Statement::DropIndex(name) => name.is_within_limits(),
            Statement::Insert(name, rows) => name.is_within_limits() && rows.is_within_limits(),
            Statement::Delete(name, test) => name.is_within_limits() && is_none_or_within(test),
            Statement::Start | Statement::Commit | Statement::ShowFrontiers => true,
            Statement::Retain(name, keep) => name.is_within_limits() && keep.is_within_limits(),
            Statement::SetIsolation(_) | Statement::SetCluster(_) => false,
        }
    }
}
