//! What a group gives beside its key.
use mz_value::{Listed, TryCopy};
use std::alloc::{AllocError, Global};

/// What is told of the rows of a group.
#[derive(Clone, Copy, Debug, PartialEq, Eq)]
pub enum Aggregate {
    /// How many rows there are, each as often as it is there.
    Count,
    /// The sum of the column at this place, each row as often as it is there.
    Sum(u64),
    /// The least value of the column at this place.
    Min(u64),
    /// The greatest value of the column at this place.
    Max(u64),
}

impl TryCopy for Aggregate {
    fn try_copy(&self, _alloc: Global) -> Result<Aggregate, AllocError> {
        Ok(*self)
    }
}

/// Aggregates, in the order of their columns.
pub type Aggregates = Listed<Aggregate>;
