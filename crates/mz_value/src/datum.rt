//! One value of a row.
use crate::{Text, TryCopy};
use std::alloc::{AllocError, Global};

/// A value. Values are in the order of the variants.
/// Within a variant they go by number, by bytes, or false before true.
#[derive(Debug, PartialEq, Eq, PartialOrd, Ord, Hash, Drop)]
pub enum Datum {
    /// An INT, of 32 bits.
    Int(i32),
    /// A TEXT.
    Text(Text),
    /// A BOOL.
    Bool(bool),
    /// A WIDE, a count or a sum.
    Wide(i128),
}

impl TryCopy for Datum {
    // Only a text takes memory.
    fn try_copy(&self, alloc: Global) -> Result<Datum, AllocError> {
        Ok(match self {
            Datum::Int(number) => Datum::Int(*number),
            Datum::Text(text) => Datum::Text(text.try_copy(alloc)?),
            Datum::Bool(truth) => Datum::Bool(*truth),
            Datum::Wide(number) => Datum::Wide(*number),
        })
    }
}
