//! The columns of a table, with their types.
use mz_value::{Listed, Name, TryCopy};
use std::alloc::{AllocError, Global};

/// The type of a column's values.
#[derive(Clone, Copy, Debug, PartialEq, Eq)]
pub enum ColumnType {
    /// Whole numbers of 32 bits.
    Int,
    /// Texts.
    Text,
    /// Truth values.
    Bool,
    /// Counts and sums. No table has such a column, only results have.
    Wide,
}

/// A column of a table or of a result.
#[derive(Debug, PartialEq, Eq, Drop)]
pub struct Column {
    /// What it is called.
    pub name: Name,
    /// What its values are.
    pub kind: ColumnType,
}

impl TryCopy for Column {
    fn try_copy(&self, alloc: Global) -> Result<Column, AllocError> {
        Ok(Column {
            name: self.name.try_copy(alloc)?,
            kind: self.kind,
        })
    }
}

/// The columns of a table or of a result, from the left.
pub type Columns = Listed<Column>;
