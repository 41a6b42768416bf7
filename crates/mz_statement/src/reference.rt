//! References to relations and to columns, and joins of them.
ghost use Rattle.std.specs.Prelude.{◌≡◌, IfOk};

use mz_value::{Listed, Name, TryCopy};
use std::alloc::{AllocError, Global};

// A copy of the name, where there is one.
pub(crate) fn copied_name(alloc: Global, name: &Option<Name>) -> Result<Option<Name>, AllocError>
    ensures { IfOk result (λ copy. copy ≡ name.now) }
{
    Ok(match name {
        Some(name) => Some(name.try_copy(alloc)?),
        None => None,
    })
}

/// A table or view that a select reads.
#[derive(Debug, PartialEq, Eq, Drop)]
pub struct Reference {
    /// What the relation is called.
    pub name: Name,
    /// What its columns are qualified by, where that is not the relation's name.
    pub alias: Option<Name>,
}

impl Reference {
    /// A copy of the reference.
    pub fn try_copy(&self, alloc: Global) -> Result<Reference, AllocError>
        ensures { IfOk result (λ copy. copy ≡ self.now) }
    {
        Ok(Reference {
            name: self.name.try_copy(alloc)?,
            alias: copied_name(alloc, &self.alias)?,
        })
    }
}

/// A column as it is written.
#[derive(Debug, PartialEq, Eq, Drop)]
pub struct ColumnName {
    /// The reference that the column is of, where one is written before a point.
    pub qualifier: Option<Name>,
    /// What the column is called.
    pub name: Name,
}

impl TryCopy for ColumnName {
    fn try_copy(&self, alloc: Global) -> Result<ColumnName, AllocError> {
        Ok(ColumnName {
            qualifier: copied_name(alloc, &self.qualifier)?,
            name: self.name.try_copy(alloc)?,
        })
    }
}

/// Columns in the order in which they are written, as those of a GROUP BY.
pub type ColumnNames = Listed<ColumnName>;

/// Two columns that a join asks to be equal.
#[derive(Debug, PartialEq, Eq, Drop)]
pub struct ColumnPair {
    /// The column before the sign.
    pub left: ColumnName,
    /// The column after it.
    pub right: ColumnName,
}

impl TryCopy for ColumnPair {
    fn try_copy(&self, alloc: Global) -> Result<ColumnPair, AllocError> {
        Ok(ColumnPair {
            left: self.left.try_copy(alloc)?,
            right: self.right.try_copy(alloc)?,
        })
    }
}

/// The pairs of columns of a join, in the order in which they are written.
pub type ColumnPairs = Listed<ColumnPair>;

/// A relation that is joined to those before it.
#[derive(Debug, PartialEq, Eq, Drop)]
pub struct Join {
    /// The relation.
    pub reference: Reference,
    /// The columns that are equal, one of the relation and one of those before it in each pair.
    pub pairs: ColumnPairs,
}

impl TryCopy for Join {
    fn try_copy(&self, alloc: Global) -> Result<Join, AllocError> {
        Ok(Join {
            reference: self.reference.try_copy(alloc)?,
            pairs: self.pairs.try_copy(alloc)?,
        })
    }
}

/// The joins of a select, in the order in which they are written.
pub type Joins = Listed<Join>;
