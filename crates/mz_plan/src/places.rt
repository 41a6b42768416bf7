//! Columns of rows, named by their places from the left, which count from 0.
use mz_value::Listed;

/// Places of columns, in the order in which they are taken.
pub type Places = Listed<u64>;

/// Pairs of places: the first of each is in the left rows of a join, the second in the right rows.
pub type Pairs = Listed<(u64, u64)>;
