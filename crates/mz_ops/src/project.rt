//! Projections.
ghost use Rattle.std.specs.Prelude.{◌≡◌, false, [], IfOk};
ghost use Rattle.mz_plan.specs.Operators.{projected};

use crate::{Changing, Operator, Timed};
use mz_bag::CountedRows;
use mz_plan::{Places, cells};
use mz_value::Row;
use std::alloc::{AllocError, Global};

/// Of each left row the values at some places. It keeps no row, and takes none on the right.
#[derive(Drop)]
pub struct Project {
    places: Places,
}

/// A projection that is told updates.
pub type ProjectOp = Timed<Project>;

// Of each row the values at these places.
fn taken(
    alloc: Global,
    rows: Vec<(Row, i128)>,
    places: &[u64],
) -> Result<Vec<(Row, i128)>, AllocError>
    ensures { IfOk result (λ taken. taken.items ≡ projected places.now rows.items) }
{
    let mut taken = Vec::with_capacity(alloc, rows.len())?;
    'rows: for (row, count) in rows {
        taken.push((cells(alloc, &row, places)?, count))?;
    }
    Ok(taken)
}

impl Project {
    /// The projection to some places. Takes no memory.
    pub fn of(places: Places) -> Project
        ensures { result.places ≡ places }
    {
        Project { places }
    }
}

impl Timed<Project> {
    /// The projection to some places, which was told nothing yet. Takes no memory.
    pub fn of(places: Places) -> ProjectOp
        ensures meaning { ⟦<ProjectOp as Operator>⟧.meaning result
            ≡ (λ ls rs. projected places ls) }
        ensures fresh { ⟦<ProjectOp as Operator>⟧.stands result [] [] }
        ensures upper { ⟦<ProjectOp as Operator>⟧.upper result ≡ 0 }
        ensures since { ⟦<ProjectOp as Operator>⟧.since result ≡ 0 }
        ensures ready { ⟦<ProjectOp as Operator>⟧.broken result ≡ false }
    {
        Timed::fresh(Project::of(places))
    }
}

impl Changing for Project {
    ghost use Rattle.std.specs.Prelude.{⊤, refl};
    ghost use Rattle.mz_ops.specs.Laws.{projection_reads, sum_load, sum_loads};

    ghost meaning = { λ op ls rs. projected op.places ls };

    ghost stands = { λ op ls rs. ⊤ };

    ghost load = { λ op. sum_load };

    ghost reads = { λ op. projection_reads op.places };

    ghost loads = { λ op. sum_loads };

    fn change(
        &mut self,
        alloc: Global,
        left: CountedRows,
        _right: CountedRows,
    ) -> Result<CountedRows, AllocError> {
        let rows = taken(alloc, left.into_vec(), self.places.as_slice())?;
        Ok(CountedRows::from_vec(rows))
    }
}
