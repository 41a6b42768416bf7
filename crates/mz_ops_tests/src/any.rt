//! An enum of operators, told by the law of each.
ghost use Rattle.std.specs.Prelude.{◌≡◌, [], OnOk};
ghost use Rattle.mz_ops_tests.specs.Told.{IsTold};

use crate::texts::{Change, time, updates, written};
use crate::told::{Told, tell, want_between, want_small};
use mz_ops::{FilterOp, JoinOp, Operator, ProjectOp, UnionOp};
use mz_time::Time;
use mz_updates::Updates;
use std::alloc::{AllocError, Global};
use std::process::Abort;

/// One of the operators.
#[derive(Drop)]
pub enum AnyOp {
    /// A filter.
    Filter(FilterOp),
    /// A projection.
    Project(ProjectOp),
    /// A union.
    Union(UnionOp),
    /// A join.
    Join(JoinOp),
}

impl Operator for AnyOp {
    ghost use Rattle.mz_ops_tests.specs.declared.any.AnyOp.TheVariants.{Filter, Project, Union, Join};

    ghost meaning = { elim [
      | Filter op ↦ ⟦<FilterOp as Operator>⟧.meaning op
      | Project op ↦ ⟦<ProjectOp as Operator>⟧.meaning op
      | Union op ↦ ⟦<UnionOp as Operator>⟧.meaning op
      | Join op ↦ ⟦<JoinOp as Operator>⟧.meaning op
    ] };

    ghost stands = { elim [
      | Filter op ↦ ⟦<FilterOp as Operator>⟧.stands op
      | Project op ↦ ⟦<ProjectOp as Operator>⟧.stands op
      | Union op ↦ ⟦<UnionOp as Operator>⟧.stands op
      | Join op ↦ ⟦<JoinOp as Operator>⟧.stands op
    ] };

    ghost upper = { elim [
      | Filter op ↦ ⟦<FilterOp as Operator>⟧.upper op
      | Project op ↦ ⟦<ProjectOp as Operator>⟧.upper op
      | Union op ↦ ⟦<UnionOp as Operator>⟧.upper op
      | Join op ↦ ⟦<JoinOp as Operator>⟧.upper op
    ] };

    ghost since = { elim [
      | Filter op ↦ ⟦<FilterOp as Operator>⟧.since op
      | Project op ↦ ⟦<ProjectOp as Operator>⟧.since op
      | Union op ↦ ⟦<UnionOp as Operator>⟧.since op
      | Join op ↦ ⟦<JoinOp as Operator>⟧.since op
    ] };

    ghost broken = { elim [
      | Filter op ↦ ⟦<FilterOp as Operator>⟧.broken op
      | Project op ↦ ⟦<ProjectOp as Operator>⟧.broken op
      | Union op ↦ ⟦<UnionOp as Operator>⟧.broken op
      | Join op ↦ ⟦<JoinOp as Operator>⟧.broken op
    ] };

    ghost bears = { elim [
      | Filter op ↦ ⟦<FilterOp as Operator>⟧.bears op
      | Project op ↦ ⟦<ProjectOp as Operator>⟧.bears op
      | Union op ↦ ⟦<UnionOp as Operator>⟧.bears op
      | Join op ↦ ⟦<JoinOp as Operator>⟧.bears op
    ] };

    fn step(
        &mut self,
        alloc: Global,
        left: &Updates,
        right: &Updates,
        next: Time,
    ) -> Result<Updates, AllocError> {
        match self {
            AnyOp::Filter(op) => op.step(alloc, left, right, next),
            AnyOp::Project(op) => op.step(alloc, left, right, next),
            AnyOp::Union(op) => op.step(alloc, left, right, next),
            AnyOp::Join(op) => op.step(alloc, left, right, next),
        }
    }

    fn allow(&mut self, oldest: Time) {
        match self {
            AnyOp::Filter(op) => op.allow(oldest),
            AnyOp::Project(op) => op.allow(oldest),
            AnyOp::Union(op) => op.allow(oldest),
            AnyOp::Join(op) => op.allow(oldest),
        }
    }
}

/// Tells an operator a step, whose updates have to be few and at its times.
pub fn tell_any(
    rt: &impl Abort,
    alloc: Global,
    op: &mut AnyOp,
    told: &mut Told,
    left: Updates,
    right: Updates,
    next: Time,
) -> Result<(), AllocError>
    requires told { IsTold (⟦<AnyOp as Operator>⟧.meaning op.old) (⟦<AnyOp as Operator>⟧.stands op.old)
        told.old.left told.old.right told.old.out }
    requires upper { told.old.upper ≡ ⟦<AnyOp as Operator>⟧.upper op.old }
    ensures told { OnOk result (IsTold (⟦<AnyOp as Operator>⟧.meaning op.new) (⟦<AnyOp as Operator>⟧.stands op.new)
        told.new.left told.new.right told.new.out) }
    ensures upper { OnOk result (told.new.upper ≡ ⟦<AnyOp as Operator>⟧.upper op.new) }
{
    assert!(rt; told.upper <= next);
    want_between(rt, &left, told.upper, next);
    want_between(rt, &right, told.upper, next);
    want_small(rt, &told.left);
    want_small(rt, &told.right);
    want_small(rt, &left);
    want_small(rt, &right);
    tell(alloc, op, told, left, right, next)
}

/// Tells a fresh operator some changes, in steps to these uppers, and gives what it answers in all.
pub fn answers(
    rt: &impl Abort,
    alloc: Global,
    op: &mut AnyOp,
    left: &[Change],
    right: &[Change],
    uppers: &[u64],
) -> Result<String, AllocError>
    requires fresh { ⟦<AnyOp as Operator>⟧.stands op.old [] [] }
    requires upper { ⟦<AnyOp as Operator>⟧.upper op.old ≡ 0 }
{
    let mut told = Told::nothing(alloc);
    'steps: for &next in uppers {
        let lower = told.upper.number();
        let lefts = updates(rt, alloc, left, lower, next)?;
        let rights = updates(rt, alloc, right, lower, next)?;
        tell_any(rt, alloc, op, &mut told, lefts, rights, time(rt, next))?;
    }
    written(alloc, &told.out)
}
