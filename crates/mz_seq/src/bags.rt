//! Copies of the rows of tables.
ghost use Rattle.std.specs.Prelude.{◌≡◌, IfOk};
ghost use Rattle.mz_seq.specs.Tables.{bags_now};

use crate::tables::Table;
use mz_bag::Bag;
use std::alloc::{AllocError, Global};

/// A copy of the rows of each table that there is, in order of creation. O(n) expected, where n rows are stored.
pub fn copied_bags(alloc: Global, tables: &[Table]) -> Result<Vec<(u64, Bag)>, AllocError>
    ensures { IfOk result (λ bags. bags.items ≡ bags_now tables.now) }
{
    let mut bags = Vec::new(alloc);
    'tables: for table in tables {
        if table.is {
            bags.push((table.number, table.rows.bag()?))?;
        }
    }
    Ok(bags)
}
