//! Rows that stand at several places, added up.
ghost use Rattle.std.specs.Prelude.{◌≡◌, IfOk};
ghost use Rattle.mz_bag.specs.Mass.{IsLight};
ghost use Rattle.mz_bag.specs.Weighted.{bag_of};
ghost use Rattle.mz_plan_laws.specs.Alike.{Alike};
ghost use Rattle.mz_dataflow.specs.Run.{IsOnce};

use mz_bag::{Bag, CountedRows};
use mz_value::Row;
use std::alloc::{AllocError, Global};

// The bag of the rows. No row is copied.
fn bag_of(alloc: Global, rows: Vec<(Row, i128)>) -> Result<Bag, AllocError>
    requires { IsLight rows.items }
    ensures { IfOk result (λ bag. bag ≡ bag_of rows.items) }
{
    let mut bag = Bag::empty(alloc);
    'rows: for (row, diff) in rows {
        bag.add(row, diff)?;
    }
    Ok(bag)
}

/// The rows with their counts, each row once, in order of values. What adds up to 0 is gone. O(m log m),
/// where there are m rows.
pub fn added_up(alloc: Global, rows: CountedRows) -> Result<CountedRows, AllocError>
    requires { IsLight rows }
    ensures alike { IfOk result (λ once. Alike once rows) }
    ensures once { IfOk result IsOnce }
{
    let bag = bag_of(alloc, rows.into_vec())?;
    let once = bag.into_counted()?;
    Ok(once)
}
