//! Unions.
ghost use Rattle.std.specs.Prelude.{◌≡◌, false, ◌++◌, []};

use crate::{Changing, Operator, Timed};
use mz_bag::CountedRows;
use std::alloc::{AllocError, Global};

/// The rows of both sides. It keeps none.
#[derive(Drop)]
pub struct Union {}

/// A union that is told updates.
pub type UnionOp = Timed<Union>;

impl Timed<Union> {
    /// The union, which was told nothing yet. Takes no memory.
    pub fn empty() -> UnionOp
        ensures meaning { ⟦<UnionOp as Operator>⟧.meaning result ≡ (λ ls rs. ls ++ rs) }
        ensures fresh { ⟦<UnionOp as Operator>⟧.stands result [] [] }
        ensures upper { ⟦<UnionOp as Operator>⟧.upper result ≡ 0 }
        ensures since { ⟦<UnionOp as Operator>⟧.since result ≡ 0 }
        ensures ready { ⟦<UnionOp as Operator>⟧.broken result ≡ false }
    {
        Timed::fresh(Union {})
    }
}

impl Changing for Union {
    ghost use Rattle.std.specs.Prelude.{⊤, refl};
    ghost use Rattle.mz_ops.specs.Laws.{sum_load, sum_loads, union_reads};

    ghost meaning = { λ op ls rs. ls ++ rs };

    ghost stands = { λ op ls rs. ⊤ };

    ghost load = { λ op. sum_load };

    ghost reads = { λ op. union_reads };

    ghost loads = { λ op. sum_loads };

    fn change(
        &mut self,
        _alloc: Global,
        left: CountedRows,
        right: CountedRows,
    ) -> Result<CountedRows, AllocError> {
        let mut rows = left.into_vec();
        rows.append(&mut right.into_vec())?;
        Ok(CountedRows::from_vec(rows))
    }
}
