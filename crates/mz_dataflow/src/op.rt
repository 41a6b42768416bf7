//! One of the operators of a plan.
use mz_bag::CountedRows;
use mz_ops::{Changing, Filter, Join, Project, Union};
use mz_reduce::{Distinct, Group};
use std::alloc::{AllocError, Global};

/// An operator of a plan: one variant for each, so that nodes of all kinds stand in one list.
#[derive(Drop)]
pub enum Op {
    /// The rows that meet a condition.
    Filter(Filter),
    /// Of each row the values at some places.
    Project(Project),
    /// Each left row with each right row that it joins.
    Join(Join),
    /// The rows of both sides.
    Union(Union),
    /// A row for each key.
    Group(Group),
    /// Each row once.
    Distinct(Distinct),
}

impl Changing for Op {
    ghost use Rattle.mz_dataflow.specs.declared.op.Op.TheVariants.{Filter as F, Project as P, Join as J};
    ghost use Rattle.mz_dataflow.specs.declared.op.Op.TheVariants.{Union as U, Group as G, Distinct as D};
    ghost use Rattle.mz_ops.specs.contracts.filter.FilterChanging.TheImpl as filter;
    ghost use Rattle.mz_ops.specs.contracts.project.ProjectChanging.TheImpl as project;
    ghost use Rattle.mz_ops.specs.contracts.join.JoinChanging.TheImpl as join;
    ghost use Rattle.mz_ops.specs.contracts.union.UnionChanging.TheImpl as union;
    ghost use Rattle.mz_reduce.specs.contracts.group.GroupChanging.TheImpl as group;
    ghost use Rattle.mz_reduce.specs.contracts.distinct.DistinctChanging.TheImpl as distinct;
    ghost use Rattle.mz_ops.specs.contracts.filter.FilterChanging.TheImpl.Laws as filter_laws;
    ghost use Rattle.mz_ops.specs.contracts.project.ProjectChanging.TheImpl.Laws as project_laws;
    ghost use Rattle.mz_ops.specs.contracts.join.JoinChanging.TheImpl.Laws as join_laws;
    ghost use Rattle.mz_ops.specs.contracts.union.UnionChanging.TheImpl.Laws as union_laws;
    ghost use Rattle.mz_reduce.specs.contracts.group.GroupChanging.TheImpl.Laws as group_laws;
    ghost use Rattle.mz_reduce.specs.contracts.distinct.DistinctChanging.TheImpl.Laws as distinct_laws;

    ghost meaning = { elim [
      | F f ↦ filter.ghosts.meaning f
      | P p ↦ project.ghosts.meaning p
      | J j ↦ join.ghosts.meaning j
      | U u ↦ union.ghosts.meaning u
      | G g ↦ group.ghosts.meaning g
      | D d ↦ distinct.ghosts.meaning d
    ] };

    ghost stands = { elim [
      | F f ↦ filter.ghosts.stands f
      | P p ↦ project.ghosts.stands p
      | J j ↦ join.ghosts.stands j
      | U u ↦ union.ghosts.stands u
      | G g ↦ group.ghosts.stands g
      | D d ↦ distinct.ghosts.stands d
    ] };

    ghost load = { elim [
      | F f ↦ filter.ghosts.load f
      | P p ↦ project.ghosts.load p
      | J j ↦ join.ghosts.load j
      | U u ↦ union.ghosts.load u
      | G g ↦ group.ghosts.load g
      | D d ↦ distinct.ghosts.load d
    ] };

    ghost reads = { elim [
      | F f ↦ filter_laws.reads-law f
      | P p ↦ project_laws.reads-law p
      | J j ↦ join_laws.reads-law j
      | U u ↦ union_laws.reads-law u
      | G g ↦ group_laws.reads-law g
      | D d ↦ distinct_laws.reads-law d
    ] };

    ghost loads = { elim [
      | F f ↦ filter_laws.loads-law f
      | P p ↦ project_laws.loads-law p
      | J j ↦ join_laws.loads-law j
      | U u ↦ union_laws.loads-law u
      | G g ↦ group_laws.loads-law g
      | D d ↦ distinct_laws.loads-law d
    ] };

    fn change(
        &mut self,
        alloc: Global,
        left: CountedRows,
        right: CountedRows,
    ) -> Result<CountedRows, AllocError> {
        match self {
            Op::Filter(op) => op.change(alloc, left, right),
            Op::Project(op) => op.change(alloc, left, right),
            Op::Join(op) => op.change(alloc, left, right),
            Op::Union(op) => op.change(alloc, left, right),
            Op::Group(op) => op.change(alloc, left, right),
            Op::Distinct(op) => op.change(alloc, left, right),
        }
    }
}
