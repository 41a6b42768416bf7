//! A node: a leaf, or an operator over one side or two.
use crate::op::Op;

/// What is done next with a stack of rows.
#[derive(Drop)]
pub enum Node {
    /// Puts the rows of the leaf with this number on it.
    Leaf(u64),
    /// Puts what an operator makes of the first rows in their place.
    Unary(Op),
    /// Puts what an operator makes of the first two in their place: the first are its right side.
    Binary(Op),
}
