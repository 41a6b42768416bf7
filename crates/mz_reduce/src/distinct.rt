//! Distinct rows.
ghost use Rattle.std.specs.Prelude.{◌≡◌, false, ◌++◌, ◌+ℤ◌, [], not, pos, OnOk};
ghost use Rattle.std.specs.Ordering.{int_eq};
ghost use Rattle.std.specs.FinMap.{empty};
ghost use Rattle.mz_bag.specs.Bag.{count_in, Fits};
ghost use Rattle.mz_plan.specs.Operators.{distinct};
ghost use Rattle.mz_reduce.specs.Counting.{is_there, turned, AreCounted, HasRoom, IsCounted};

use mz_bag::{Bag, CountedRows};
use mz_ops::{Changing, Operator, Timed};
use mz_time::Time;
use mz_updates::Updates;
use mz_value::{Row, TryCopy};
use std::alloc::{AllocError, Global};

/// The left rows that are there, each once. It keeps how often each is there, and takes none on the
/// right.
#[derive(Drop)]
pub struct Distinct {
    rows: Bag,
}

/// Distinct rows that are told updates.
#[derive(Drop)]
pub struct DistinctOp {
    timed: Timed<Distinct>,
}

/// Whether a row with this count is there.
pub fn is_there(count: i128) -> bool
    ensures { result ≡ is_there count }
{
    count != 0
}

// Puts a row that came, or one that went, behind others.
fn push_turned(out: &mut Vec<(Row, i128)>, row: Row, was: bool, is: bool) -> Result<(), AllocError>
    ensures { OnOk result (out.new.items ≡ out.old.items ++ turned row was is) }
{
    match (was, is) {
        (false, true) => out.push((row, 1))?,
        (true, false) => out.push((row, -1))?,
        _ => {}
    }
    Ok(())
}

// One row comes in.
fn row_in(
    alloc: Global,
    out: &mut Vec<(Row, i128)>,
    row: Row,
    diff: i128,
    rows: &mut Bag,
) -> Result<(), AllocError>
    requires { Fits (count_in rows.old row +ℤ diff) }
    ensures { OnOk result (IsCounted rows.old rows.new row diff out.old.items out.new.items) }
{
    let was = is_there(rows.get(&row));
    rows.add(row.try_copy(alloc)?, diff)?;
    let is = is_there(rows.get(&row));
    push_turned(out, row, was, is)
}

// The rows of a change come in.
fn all_in(
    alloc: Global,
    out: &mut Vec<(Row, i128)>,
    left: Vec<(Row, i128)>,
    rows: &mut Bag,
) -> Result<(), AllocError>
    requires room { HasRoom rows.old left.items }
    requires none { out.old.items ≡ [] }
    ensures { OnOk result (AreCounted rows.old rows.new left.items out.new.items) }
{
    'left: for (row, diff) in left {
        row_in(alloc, out, row, diff, rows)?;
    }
    Ok(())
}

impl Distinct {
    /// Distinct rows, of which none was told yet. Takes no memory.
    pub fn empty(alloc: Global) -> Distinct
        ensures { result.rows ≡ empty }
    {
        Distinct {
            rows: Bag::empty(alloc),
        }
    }
}

impl DistinctOp {
    /// Distinct rows, of which none was told yet. Takes no memory.
    pub fn empty(alloc: Global) -> DistinctOp
        ensures meaning { ⟦<DistinctOp as Operator>⟧.meaning result ≡ (λ ls rs. distinct ls) }
        ensures fresh { ⟦<DistinctOp as Operator>⟧.stands result [] [] }
        ensures upper { ⟦<DistinctOp as Operator>⟧.upper result ≡ 0 }
        ensures since { ⟦<DistinctOp as Operator>⟧.since result ≡ 0 }
        ensures ready { ⟦<DistinctOp as Operator>⟧.broken result ≡ false }
    {
        DistinctOp {
            timed: Timed::fresh(Distinct::empty(alloc)),
        }
    }
}

impl Changing for Distinct {
    ghost use Rattle.std.specs.Prelude.{refl};
    ghost use Rattle.mz_reduce.specs.Counting.{IsCountOf};
    ghost use Rattle.mz_reduce.specs.Laws.{distinct_reads, kept_load, kept_loads};

    ghost meaning = { λ op ls rs. distinct ls };

    ghost stands = { λ op ls rs. IsCountOf op.rows ls };

    ghost load = { λ op. kept_load };

    ghost reads = { λ op. distinct_reads op.rows };

    ghost loads = { λ op. kept_loads };

    fn change(
        &mut self,
        alloc: Global,
        left: CountedRows,
        _right: CountedRows,
    ) -> Result<CountedRows, AllocError> {
        let mut out = Vec::new(alloc);
        all_in(alloc, &mut out, left.into_vec(), &mut self.rows)?;
        Ok(CountedRows::from_vec(out))
    }
}

impl Operator for DistinctOp {
    ghost meaning = { λ op. ⟦<Timed<Distinct> as Operator>⟧.meaning op.timed };

    ghost stands = { λ op. ⟦<Timed<Distinct> as Operator>⟧.stands op.timed };

    ghost upper = { λ op. ⟦<Timed<Distinct> as Operator>⟧.upper op.timed };

    ghost since = { λ op. ⟦<Timed<Distinct> as Operator>⟧.since op.timed };

    ghost broken = { λ op. ⟦<Timed<Distinct> as Operator>⟧.broken op.timed };

    ghost bears = { λ op. ⟦<Timed<Distinct> as Operator>⟧.bears op.timed };

    fn step(
        &mut self,
        alloc: Global,
        left: &Updates,
        right: &Updates,
        next: Time,
    ) -> Result<Updates, AllocError> {
        self.timed.step(alloc, left, right, next)
    }

    fn allow(&mut self, oldest: Time) {
        self.timed.allow(oldest);
    }
}
