//! Groups and distinct rows as one operator, told by the law of each.
ghost use Rattle.std.specs.Prelude.{◌≡◌, [], OnOk};
ghost use Rattle.mz_reduce_tests.specs.Told.{IsTold};

use crate::texts::{Change, time, updates, written};
use crate::told::{Told, tell, want_between, want_small};
use mz_ops::Operator;
use mz_reduce::{DistinctOp, GroupOp};
use mz_time::Time;
use mz_updates::Updates;
use std::alloc::{AllocError, Global};
use std::process::Abort;

/// One of the operators.
#[derive(Drop)]
pub enum AnyOp {
    /// Groups.
    Group(GroupOp),
    /// Distinct rows.
    Distinct(DistinctOp),
}

impl Operator for AnyOp {
    ghost use Rattle.mz_reduce_tests.specs.declared.any.AnyOp.TheVariants.{Group, Distinct};

    ghost meaning = { elim [
      | Group op ↦ ⟦<GroupOp as Operator>⟧.meaning op
      | Distinct op ↦ ⟦<DistinctOp as Operator>⟧.meaning op
    ] };

    ghost stands = { elim [
      | Group op ↦ ⟦<GroupOp as Operator>⟧.stands op
      | Distinct op ↦ ⟦<DistinctOp as Operator>⟧.stands op
    ] };

    ghost upper = { elim [
      | Group op ↦ ⟦<GroupOp as Operator>⟧.upper op
      | Distinct op ↦ ⟦<DistinctOp as Operator>⟧.upper op
    ] };

    ghost since = { elim [
      | Group op ↦ ⟦<GroupOp as Operator>⟧.since op
      | Distinct op ↦ ⟦<DistinctOp as Operator>⟧.since op
    ] };

    ghost broken = { elim [
      | Group op ↦ ⟦<GroupOp as Operator>⟧.broken op
      | Distinct op ↦ ⟦<DistinctOp as Operator>⟧.broken op
    ] };

    ghost bears = { elim [
      | Group op ↦ ⟦<GroupOp as Operator>⟧.bears op
      | Distinct op ↦ ⟦<DistinctOp as Operator>⟧.bears op
    ] };

    fn step(
        &mut self,
        alloc: Global,
        left: &Updates,
        right: &Updates,
        next: Time,
    ) -> Result<Updates, AllocError> {
        match self {
            AnyOp::Group(op) => op.step(alloc, left, right, next),
            AnyOp::Distinct(op) => op.step(alloc, left, right, next),
        }
    }

    fn allow(&mut self, oldest: Time) {
        match self {
            AnyOp::Group(op) => op.allow(oldest),
            AnyOp::Distinct(op) => op.allow(oldest),
        }
    }
}

/// Tells an operator a step, whose updates have to be few and at its times.
pub fn tell_any(
    rt: &impl Abort,
    alloc: Global,
    op: &mut AnyOp,
    told: &mut Told,
    left: Updates,
    right: Updates,
    next: Time,
) -> Result<(), AllocError>
    requires told { IsTold (⟦<AnyOp as Operator>⟧.meaning op.old) (⟦<AnyOp as Operator>⟧.stands op.old)
        told.old.left told.old.right told.old.out }
    requires upper { told.old.upper ≡ ⟦<AnyOp as Operator>⟧.upper op.old }
    ensures told { OnOk result (IsTold (⟦<AnyOp as Operator>⟧.meaning op.new) (⟦<AnyOp as Operator>⟧.stands op.new)
        told.new.left told.new.right told.new.out) }
    ensures upper { OnOk result (told.new.upper ≡ ⟦<AnyOp as Operator>⟧.upper op.new) }
{
    assert!(rt; told.upper <= next);
    want_between(rt, &left, told.upper, next);
    want_between(rt, &right, told.upper, next);
    want_small(rt, &told.left);
    want_small(rt, &told.right);
    want_small(rt, &left);
    want_small(rt, &right);
    tell(alloc, op, told, left, right, next)
}

/// Tells a fresh operator some changes, in steps to these uppers, and gives what it answers in all.
pub fn answers(
    rt: &impl Abort,
    alloc: Global,
    op: &mut AnyOp,
    left: &[Change],
    right: &[Change],
    uppers: &[u64],
) -> Result<String, AllocError>
    requires fresh { ⟦<AnyOp as Operator>⟧.stands op.old [] [] }
    requires upper { ⟦<AnyOp as Operator>⟧.upper op.old ≡ 0 }
{
    let mut told = Told::nothing(alloc);
    'steps: for &next in uppers {
        let lower = told.upper.number();
        let lefts = updates(rt, alloc, left, lower, next)?;
        let rights = updates(rt, alloc, right, lower, next)?;
        tell_any(rt, alloc, op, &mut told, lefts, rights, time(rt, next))?;
    }
    written(alloc, &told.out)
}
