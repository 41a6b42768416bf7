//! Conditions on rows whose columns are named by their places.
ghost use Rattle.std.specs.Prelude.{◌≡◌, IfOk};
ghost use Rattle.mz_plan.specs.Condition.{all_hold, any_holds, holds, op_holds, operand_value};
ghost use Rattle.mz_plan.specs.Value.{value_at, value_cmp};

use crate::value::{compare, value_or};
use mz_statement::Op;
use mz_value::{Datum, Row, TryCopy};
use sqlite_items::{Boxed, Items};
use std::alloc::{AllocError, Global};
use std::cmp::Ordering;

/// What a column is compared with.
#[derive(Drop)]
pub enum Operand {
    /// The column at this place of the same row.
    Place(u64),
    /// A value.
    Literal(Datum),
}

impl Operand {
    /// A copy of the operand.
    pub fn try_copy(&self, alloc: Global) -> Result<Operand, AllocError>
        ensures { IfOk result (λ copy. copy ≡ self.now) }
    {
        Ok(match self {
            Operand::Place(place) => Operand::Place(*place),
            Operand::Literal(value) => Operand::Literal(value.try_copy(alloc)?),
        })
    }
}

/// A condition on a row. A list of conditions is gone through by loops, from its first one on, so
/// copies, evaluations and drops nest as deep as lists and NOTs do, and no deeper the longer lists are.
#[derive(Drop)]
pub enum Cond {
    /// Each of the conditions holds. Of none that is so.
    All(Items<Cond>),
    /// One of the conditions holds, or more. Of none that isn't so.
    Any(Items<Cond>),
    /// The condition doesn't hold.
    Not(Boxed<Cond>),
    /// The column at this place compares so with the operand.
    Compare(u64, Op, Operand),
}

// Whether the sign says so of two values that compare like this.
fn op_holds(op: Op, ordering: Ordering) -> bool
    ensures { result ≡ op_holds op ordering }
{
    match op {
        Op::Eq => ordering.is_eq(),
        Op::Ne => ordering.is_ne(),
        Op::Lt => ordering.is_lt(),
        Op::Le => ordering.is_le(),
        Op::Gt => ordering.is_gt(),
        Op::Ge => ordering.is_ge(),
    }
}

// Whether the column at this place compares so with the operand.
fn compares(row: &Row, place: u64, op: Op, operand: &Operand) -> bool
    ensures { result ≡ op_holds op (value_cmp (value_at row.now place) (operand_value operand.now row.now)) }
{
    let absent = Datum::Bool(false);
    let value = value_or(row, place, &absent);
    let ordering = match operand {
        Operand::Place(other) => compare(value, value_or(row, *other, &absent)),
        Operand::Literal(literal) => compare(value, literal),
    };
    op_holds(op, ordering)
}

// Whether each of the conditions holds of a row. It stops at the first that doesn't.
#[cycle(holds)]
fn all_hold(conds: &[Cond], row: &Row) -> bool
    ensures { result ≡ all_hold conds.now row.now }
{
    'conds: for cond in conds {
        if !cond.holds(row) {
            return false;
        }
    }
    true
}

// Whether one of the conditions holds of a row, or more. It stops at the first that does.
#[cycle(holds)]
fn any_holds(conds: &[Cond], row: &Row) -> bool
    ensures { result ≡ any_holds conds.now row.now }
{
    'conds: for cond in conds {
        if cond.holds(row) {
            return true;
        }
    }
    false
}

// A copy of the conditions.
#[cycle(copy)]
fn copied(alloc: Global, conds: &[Cond]) -> Result<Vec<Cond>, AllocError>
    ensures { IfOk result (λ copy. copy.items ≡ conds.now) }
{
    let mut copy = Vec::with_capacity(alloc, conds.len())?;
    'conds: for cond in conds {
        copy.push(cond.try_copy(alloc)?)?;
    }
    Ok(copy)
}

impl Cond {
    /// Whether the condition holds of a row. A list is gone through by a loop, to the first of its conditions
    /// that decides. Takes no memory.
    #[cycle(holds)]
    #[tactic(auto, using(crate::proofs::ConditionRules::condition_rules))]
    pub fn holds(&self, row: &Row) -> bool
        ensures { result ≡ holds self.now row.now }
    {
        match self {
            Cond::All(conds) => all_hold(conds.as_slice(), row),
            Cond::Any(conds) => any_holds(conds.as_slice(), row),
            Cond::Not(cond) => !cond.get().holds(row),
            Cond::Compare(place, op, operand) => compares(row, *place, *op, operand),
        }
    }

    /// A copy of the condition. A list is copied by a loop.
    #[cycle(copy)]
    pub fn try_copy(&self, alloc: Global) -> Result<Cond, AllocError>
        ensures { IfOk result (λ copy. copy ≡ self.now) }
    {
        Ok(match self {
            Cond::All(conds) => Cond::All(Items::from_vec(copied(alloc, conds.as_slice())?)),
            Cond::Any(conds) => Cond::Any(Items::from_vec(copied(alloc, conds.as_slice())?)),
            Cond::Not(cond) => Cond::Not(Boxed::new(alloc, cond.get().try_copy(alloc)?)?),
            Cond::Compare(place, op, operand) => {
                Cond::Compare(*place, *op, operand.try_copy(alloc)?)
            }
        })
    }
}
