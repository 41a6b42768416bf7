//! What conditions and equalities of JOINs compare, by places in place of names.
ghost use Rattle.std.specs.Prelude.{◌≡◌};
ghost use Rattle.mz_plan.specs.Types.{may_compare, same_type, type_of};
ghost use Rattle.mz_resolution.specs.Conditions.{are_sides, compared, condition, equalities, equality, paired, tested, with_column, with_literal, with_side};
ghost use Rattle.mz_resolution.specs.Steps.{each};
ghost use Rattle.mz_select.specs.Gives.{Gives, Is};

use crate::columns::{SeenColumn, Sight};
use crate::faults::wrong_column;
use mz_plan::{Cond, Operand, Pairs};
use mz_refusal::CallFault;
use mz_statement::{ColumnName, ColumnPair, ColumnType, Condition, Join, Op, Side, Test};
use mz_value::{Datum, TryCopy};
use sqlite_items::{Boxed, Items};
use std::alloc::Global;

/// Whether two types are one. Takes no memory.
pub fn same_type(one: ColumnType, other: ColumnType) -> bool
    ensures { result ≡ same_type one other }
{
    one == other
}

/// The type of a value. Takes no memory.
pub fn type_of(value: &Datum) -> ColumnType
    ensures { result ≡ type_of value.now }
{
    match value {
        Datum::Int(_) => ColumnType::Int,
        Datum::Text(_) => ColumnType::Text,
        Datum::Bool(_) => ColumnType::Bool,
        Datum::Wide(_) => ColumnType::Wide,
    }
}

// Whether a literal may be compared with a column of this type.
fn may_compare(kind: ColumnType, literal: &Datum) -> bool
    ensures { result ≡ may_compare kind literal.now }
{
    match (kind, literal) {
        (ColumnType::Wide, Datum::Int(_)) => true,
        _ => same_type(kind, type_of(literal)),
    }
}

// A comparison of two columns, which have to be of one type.
fn with_column<'a>(
    alloc: Global,
    column: &ColumnName,
    op: Op,
    left: &SeenColumn<'a>,
    right: &SeenColumn<'a>,
) -> Result<Cond, CallFault>
    ensures { Is result (with_column column.now op left.now right.now) }
{
    if same_type(left.kind(), right.kind()) {
        Ok(Cond::Compare(left.place(), op, Operand::Place(right.place())))
    } else {
        Err(CallFault::Refused(wrong_column(alloc, column)?))
    }
}

// A comparison with a literal, which has to fit.
fn with_literal<'a>(
    alloc: Global,
    column: &ColumnName,
    op: Op,
    left: &SeenColumn<'a>,
    literal: &Datum,
) -> Result<Cond, CallFault>
    ensures { Is result (with_literal column.now op left.now literal.now) }
{
    if may_compare(left.kind(), literal) {
        let literal = literal.try_copy(alloc)?;
        Ok(Cond::Compare(left.place(), op, Operand::Literal(literal)))
    } else {
        Err(CallFault::Refused(wrong_column(alloc, column)?))
    }
}

// A comparison with a column or a literal.
fn with_side<'a>(
    alloc: Global,
    sight: &Sight<'a>,
    column: &ColumnName,
    op: Op,
    left: &SeenColumn<'a>,
    right: &Side,
) -> Result<Cond, CallFault>
    ensures { Is result (with_side sight.now column.now op left.now right.now) }
{
    match right {
        Side::Column(other) => with_column(alloc, column, op, left, sight.meant(alloc, other)?),
        Side::Literal(literal) => with_literal(alloc, column, op, left, literal),
    }
}

// A comparison, its left column first.
fn compared<'a>(
    alloc: Global,
    sight: &Sight<'a>,
    column: &ColumnName,
    op: Op,
    right: &Side,
) -> Result<Cond, CallFault>
    ensures { Is result (compared sight.now column.now op right.now) }
{
    let left = sight.meant(alloc, column)?;
    with_side(alloc, sight, column, op, left, right)
}

// The conditions of a list of tests, from the first.
#[cycle(tested)]
#[tactic(auto, using(crate::proofs::Fronts::fronts))]
fn listed<'a>(alloc: Global, sight: &Sight<'a>, tests: &[Test]) -> Result<Items<Cond>, CallFault>
    ensures { Is result (each (tested sight.now) tests.now) }
{
    let mut found = Vec::with_capacity(alloc, tests.len())?;
    'tests: for test in tests {
        found.push(tested(alloc, sight, test)?)?;
    }
    Ok(Items::from_vec(found))
}

// The condition of a test. A list is gone through by a loop.
#[cycle(tested)]
#[tactic(auto, using(crate::proofs::TestRules::tested_rules))]
fn tested<'a>(alloc: Global, sight: &Sight<'a>, test: &Test) -> Result<Cond, CallFault>
    ensures { Is result (tested sight.now test.now) }
{
    match test {
        Test::All(tests) => Ok(Cond::All(listed(alloc, sight, tests.as_slice())?)),
        Test::Any(tests) => Ok(Cond::Any(listed(alloc, sight, tests.as_slice())?)),
        Test::Not(test) => {
            let below = tested(alloc, sight, test.get())?;
            Ok(Cond::Not(Boxed::new(alloc, below)?))
        }
        Test::Compare(column, op, right) => compared(alloc, sight, column, *op, right),
    }
}

/// The condition behind WHERE, where there is one. Time follows the condition and the columns that it sees.
pub fn condition<'a>(
    alloc: Global,
    sight: &Sight<'a>,
    test: &Option<Condition>,
) -> Result<Option<Cond>, CallFault>
    ensures { Is result (condition sight.now test.now) }
{
    match test {
        Some(condition) => Ok(Some(tested(alloc, sight, condition.test())?)),
        None => Ok(None),
    }
}

// Whether two columns may stand in an equality of the JOIN with this number.
fn are_sides<'a>(joined: u64, earlier: &SeenColumn<'a>, later: &SeenColumn<'a>) -> bool
    ensures { result ≡ are_sides joined earlier.now later.now }
{
    same_type(earlier.kind(), later.kind()) && earlier.owner() < joined && later.owner() == joined
}

// An equality as two places, in the rows to the left and in those of the joined reference.
fn paired<'a>(
    alloc: Global,
    joined: u64,
    column: &ColumnName,
    left: &SeenColumn<'a>,
    right: &SeenColumn<'a>,
) -> Result<(u64, u64), CallFault>
    ensures { Is result (paired joined column.now left.now right.now) }
{
    if are_sides(joined, left, right) {
        Ok((left.place(), right.within()))
    } else if are_sides(joined, right, left) {
        Ok((right.place(), left.within()))
    } else {
        Err(CallFault::Refused(wrong_column(alloc, column)?))
    }
}

// An equality of the JOIN with this number, its left column first.
fn equality<'a>(
    alloc: Global,
    sight: &Sight<'a>,
    joined: u64,
    pair: &ColumnPair,
) -> Result<(u64, u64), CallFault>
    ensures { Is result (equality sight.now joined pair.now) }
{
    let left = sight.meant(alloc, &pair.left)?;
    let right = sight.meant(alloc, &pair.right)?;
    paired(alloc, joined, &pair.left, left, right)
}

// The equalities of the JOIN with this number.
#[tactic(auto, using(crate::proofs::Fronts::fronts))]
fn pairs<'a>(
    alloc: Global,
    sight: &Sight<'a>,
    joined: u64,
    pairs: &[ColumnPair],
) -> Result<Pairs, CallFault>
    ensures { Is result (each (equality sight.now joined) pairs.now) }
{
    let mut found = Vec::with_capacity(alloc, pairs.len())?;
    'pairs: for pair in pairs {
        found.push(equality(alloc, sight, joined, pair)?)?;
    }
    Ok(Pairs::from_vec(found))
}

/// The pairs of places of each JOIN, the first of which has the number 1. Time follows the equalities and
/// the columns that they see.
#[tactic(auto, using(crate::proofs::Fronts::fronts))]
pub fn equalities<'a>(
    alloc: Global,
    sight: &Sight<'a>,
    joins: &[Join],
) -> Result<Vec<Pairs>, CallFault>
    ensures { Gives (λ pairs. pairs.items) result (equalities sight.now 1 joins.now) }
{
    let mut found = Vec::with_capacity(alloc, joins.len())?;
    'joins: for (before, join) in joins.iter().enumerate() {
        found.push(pairs(alloc, sight, before as u64 + 1, join.pairs.as_slice())?)?;
    }
    Ok(found)
}
