//! What a select gives: columns and aggregates.
ghost use Rattle.std.specs.Prelude.{◌≡◌, IfOk};

use crate::ColumnName;
use crate::reference::copied_name;
use mz_value::{Listed, Name, TryCopy};
use std::alloc::{AllocError, Global};

/// A column, or an aggregate over a group of rows.
#[derive(Debug, PartialEq, Eq, Drop)]
pub enum Expression {
    /// The column itself.
    Column(ColumnName),
    /// `COUNT(*)`, how many rows there are.
    Count,
    /// The sum of a column.
    Sum(ColumnName),
    /// The least value of a column.
    Min(ColumnName),
    /// The greatest value of a column.
    Max(ColumnName),
}

impl Expression {
    /// A copy of the expression.
    pub fn try_copy(&self, alloc: Global) -> Result<Expression, AllocError>
        ensures { IfOk result (λ copy. copy ≡ self.now) }
    {
        Ok(match self {
            Expression::Column(column) => Expression::Column(column.try_copy(alloc)?),
            Expression::Count => Expression::Count,
            Expression::Sum(column) => Expression::Sum(column.try_copy(alloc)?),
            Expression::Min(column) => Expression::Min(column.try_copy(alloc)?),
            Expression::Max(column) => Expression::Max(column.try_copy(alloc)?),
        })
    }
}

/// One item of a select.
#[derive(Debug, PartialEq, Eq, Drop)]
pub struct SelectItem {
    /// What it gives.
    pub expression: Expression,
    /// What the resulting column is called, where AS says so.
    pub alias: Option<Name>,
}

impl TryCopy for SelectItem {
    fn try_copy(&self, alloc: Global) -> Result<SelectItem, AllocError> {
        Ok(SelectItem {
            expression: self.expression.try_copy(alloc)?,
            alias: copied_name(alloc, &self.alias)?,
        })
    }
}

/// The items of a select, from the left.
pub type SelectItems = Listed<SelectItem>;
