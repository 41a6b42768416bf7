//! A row of values, seen as their list.
ghost use Rattle.std.specs.Prelude.{◌≡◌, refl};
ghost use Rattle.std.specs.Ordering.{as_partial_cmp};
ghost use Rattle.std.specs.Hash as fed;
ghost use Rattle.std.specs.Hash.{same_Alike};
ghost use Rattle.std.specs.Cmp.{partial_equiv_from_equiv, po};
ghost use Rattle.mz_value.specs.Row.{row_cmp, row_eq};
ghost use Rattle.mz_value.specs.RowOrder.{row_total, row_equiv, row_eq-Decides};

use crate::{Datum, Listed, TryCopy, copied};
use std::alloc::{AllocError, Global};
use std::cmp::Ordering;
use std::hash::{Hash, Hasher};
use std::marker::Model;

/// A row: its values, one a column. Rows are in order column by column from the left.
#[derive(Debug, Drop)]
pub struct Row {
    cells: Vec<Datum>,
}

/// Rows in the order in which they were given. A row may stand at several places.
pub type Rows = Listed<Row>;

impl Model for Row {
    ghost use Rattle.std.specs.Prelude.{List};
    ghost use Rattle.mz_value.specs.declared.datum.Datum.{Datum};

    ghost Value = { List Datum };

    ghost view = { λ r. r.cells.items };
}

impl Row {
    /// The row with these values. Takes no memory.
    pub fn from_vec(cells: Vec<Datum>) -> Row
        ensures { result ≡ cells.items }
    {
        Row { cells }
    }

    /// The values of the row. Takes no memory.
    pub fn into_vec(self) -> Vec<Datum>
        ensures { result.items ≡ self }
    {
        self.cells
    }

    /// The values, from the left. Takes no memory.
    pub fn as_slice(&self) -> &[Datum]
        ensures { result.now ≡ self.now }
    {
        self.cells.as_slice()
    }
}

impl TryCopy for Row {
    fn try_copy(&self, alloc: Global) -> Result<Row, AllocError> {
        Ok(Row {
            cells: copied(alloc, &self.cells)?,
        })
    }
}

impl PartialEq for Row {
    ghost eq = { row_eq };

    ghost laws = { partial_equiv_from_equiv row_equiv };

    fn eq(&self, other: &Row) -> bool {
        self.cells == other.cells
    }
}

impl Eq for Row {
    ghost laws = { row_equiv };
}

impl PartialOrd for Row {
    ghost partial_cmp = { as_partial_cmp row_cmp };

    ghost laws = { po row_total (λ x y. refl) };

    fn partial_cmp(&self, other: &Row) -> Option<Ordering> {
        Some(self.cmp(other))
    }
}

impl Ord for Row {
    ghost cmp = { row_cmp };

    ghost total = { row_total };

    ghost matches_partial_cmp = { λ x y. refl };

    ghost matches_eq = { λ x y. refl };

    fn cmp(&self, other: &Row) -> Ordering {
        self.cells.cmp(&other.cells)
    }
}

impl Hash for Row {
    ghost hash_input = { fed.slice ⟦<Datum as Hash>⟧.hash_input };

    ghost respects_eq = { (same_Alike _ row_eq-Decides).fed };

    fn hash<H: Hasher>(&self, state: &mut H) {
        self.cells.hash(state);
    }
}
