//! A list of values, seen as the list of what they are seen as, and how its members are copied.
ghost use Rattle.std.specs.Prelude.{◌≡◌, ◌↔◌, [], length, IfOk, IsTrue};
ghost use Rattle.std.specs.Cmp.Lexicographic.{pointwise, lists_equiv, lists_per};

use std::alloc::{AllocError, Global};
use std::marker::Model;

/// What a list of it can be copied by: a copy of one.
pub trait TryCopy: Sized {
    /// A copy of the value.
    fn try_copy(&self, alloc: Global) -> Result<Self, AllocError>
        ensures { IfOk result (λ copy. copy ≡ self.now) };
}

impl TryCopy for u64 {
    fn try_copy(&self, _alloc: Global) -> Result<u64, AllocError> {
        Ok(*self)
    }
}

impl TryCopy for i128 {
    fn try_copy(&self, _alloc: Global) -> Result<i128, AllocError> {
        Ok(*self)
    }
}

impl<A: TryCopy + Drop, B: TryCopy + Drop> TryCopy for (A, B) {
    fn try_copy(&self, alloc: Global) -> Result<(A, B), AllocError> {
        let (first, second) = self;
        Ok((first.try_copy(alloc)?, second.try_copy(alloc)?))
    }
}

/// A copy of the values, in their order.
pub fn copied<T: TryCopy + Drop>(alloc: Global, values: &[T]) -> Result<Vec<T>, AllocError>
    ensures { IfOk result (λ copy. copy.items ≡ values.now) }
{
    let mut copy = Vec::with_capacity(alloc, values.len())?;
    for value in values {
        copy.push(value.try_copy(alloc)?)?;
    }
    Ok(copy)
}

/// Values in the order in which they were given. A value may stand at several places.
#[derive(Debug, Drop)]
pub struct Listed<T> {
    values: Vec<T>,
}

impl<T> Model for Listed<T> {
    ghost use Rattle.std.specs.Prelude.{List};
    ghost use Rattle.std.specs.Coded.{coded_list};

    ghost Value = { List T };

    ghost coded = { coded_list T.code };

    ghost view = { λ l. l.values.items };
}

impl<T> Listed<T> {
    /// The list of these values. Takes no memory.
    pub fn from_vec(values: Vec<T>) -> Listed<T>
        ensures { result ≡ values.items }
    {
        Listed { values }
    }

    /// The values of the list. Takes no memory.
    pub fn into_vec(self) -> Vec<T>
        ensures { result.items ≡ self }
    {
        self.values
    }

    /// The values, from the first. Takes no memory.
    pub fn as_slice(&self) -> &[T]
        ensures { result.now ≡ self.now }
    {
        self.values.as_slice()
    }

    /// How many values there are, one at two places counted twice. Takes no memory.
    pub fn len(&self) -> usize
        ensures { result ≡ length self.now }
    {
        self.values.len()
    }

    /// Whether there is no value. Takes no memory.
    pub fn is_empty(&self) -> bool
        ensures { IsTrue result ↔ (self.now ≡ []) }
    {
        self.values.is_empty()
    }
}

impl<T: TryCopy + Drop> Listed<T> {
    /// A copy of the list.
    pub fn try_copy(&self, alloc: Global) -> Result<Listed<T>, AllocError>
        ensures { IfOk result (λ copy. copy ≡ self.now) }
    {
        Ok(Listed {
            values: copied(alloc, &self.values)?,
        })
    }
}

impl<T: PartialEq> PartialEq for Listed<T> {
    ghost eq = { pointwise T.eq };

    ghost laws = { lists_per T.laws };

    fn eq(&self, other: &Listed<T>) -> bool {
        self.values == other.values
    }
}

impl<T: Eq> Eq for Listed<T> {
    ghost laws = { lists_equiv T.Eq.laws };
}
