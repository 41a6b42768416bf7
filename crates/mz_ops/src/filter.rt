//! Filters.
ghost use Rattle.std.specs.Prelude.{◌≡◌, false, []};
ghost use Rattle.mz_plan.specs.Condition.{holds};
ghost use Rattle.mz_plan.specs.Operators.{filtered};

use crate::{Changing, Operator, Timed};
use mz_bag::CountedRows;
use mz_plan::Cond;
use mz_value::Row;
use std::alloc::{AllocError, Global};

/// The left rows that meet a condition. It keeps no row, and takes none on the right.
#[derive(Drop)]
pub struct Filter {
    cond: Cond,
}

/// A filter that is told updates.
pub type FilterOp = Timed<Filter>;

// Keeps the rows that meet the condition. Takes no memory.
fn keep(rows: &mut Vec<(Row, i128)>, cond: &Cond)
    ensures { rows.new.items ≡ filtered (holds cond.now) rows.old.items }
{
    rows.retain(|entry| cond.holds(&entry.0));
}

impl Filter {
    /// The filter by a condition. Takes no memory.
    pub fn of(cond: Cond) -> Filter
        ensures { result.cond ≡ cond }
    {
        Filter { cond }
    }
}

impl Timed<Filter> {
    /// The filter by a condition, which was told nothing yet. Takes no memory.
    pub fn of(cond: Cond) -> FilterOp
        ensures meaning { ⟦<FilterOp as Operator>⟧.meaning result
            ≡ (λ ls rs. filtered (holds cond) ls) }
        ensures fresh { ⟦<FilterOp as Operator>⟧.stands result [] [] }
        ensures upper { ⟦<FilterOp as Operator>⟧.upper result ≡ 0 }
        ensures since { ⟦<FilterOp as Operator>⟧.since result ≡ 0 }
        ensures ready { ⟦<FilterOp as Operator>⟧.broken result ≡ false }
    {
        Timed::fresh(Filter::of(cond))
    }
}

impl Changing for Filter {
    ghost use Rattle.std.specs.Prelude.{⊤, refl};
    ghost use Rattle.mz_ops.specs.Laws.{filter_reads, sum_load, sum_loads};

    ghost meaning = { λ op ls rs. filtered (holds op.cond) ls };

    ghost stands = { λ op ls rs. ⊤ };

    ghost load = { λ op. sum_load };

    ghost reads = { λ op. filter_reads (holds op.cond) };

    ghost loads = { λ op. sum_loads };

    fn change(
        &mut self,
        _alloc: Global,
        left: CountedRows,
        _right: CountedRows,
    ) -> Result<CountedRows, AllocError> {
        let mut rows = left.into_vec();
        keep(&mut rows, &self.cond);
        Ok(CountedRows::from_vec(rows))
    }
}
