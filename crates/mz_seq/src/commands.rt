//! An INSERT and a DELETE on one table, and what they are told.
ghost use Rattle.std.specs.Prelude.{◌≡◌, length, IfOk, OnOk, OnErr};
ghost use Rattle.std.specs.FinMap.{entries};
ghost use Rattle.mz_bag.specs.Mass.{mass};
ghost use Rattle.mz_bag.specs.Weighted.{each_once, negated};
ghost use Rattle.mz_plan.specs.Operators.{filtered};
ghost use Rattle.mz_log.specs.Sequential.{added};
ghost use Rattle.mz_log.specs.CarriedOut.{meets, overfull, rows_in};
ghost use Rattle.mz_log.specs.declared.reply.SeqReply.TheVariants.{Inserted, Deleted};
ghost use Rattle.mz_seq.specs.Told.{ComesTo};

use crate::TableRows;
use mz_log::SeqReply;
use mz_plan::{Cond, MOST_ROWS};
use mz_refusal::Refusal;
use mz_value::Row;
use std::alloc::AllocError;

// Why no such number of rows can come to the table.
fn overfull(table: &TableRows, adds: u64) -> Option<Refusal>
    ensures { result ≡ overfull (rows_in table.now.present) adds }
{
    let has = table.rows();
    if adds <= MOST_ROWS - has {
        None
    } else {
        Some(Refusal::TableFull { has, adds })
    }
}

/// Adds rows to the table, one that is named twice twice, unless it would have more than a table may. After an `Err` the
/// table is as before. O(m) expected, where there are m rows.
pub fn insert(table: &mut TableRows, rows: &[Row]) -> Result<SeqReply, AllocError>
    ensures told { IfOk result
        (λ reply. ComesTo (overfull (rows_in table.old.present) (length rows.now))
        (Inserted (length rows.now)) (added table.old.present (each_once rows.now))
        table.old.present table.new.present reply) }
    ensures err { OnErr result (table.new.present ≡ table.old.present) }
    ensures marked { table.new.marked ≡ table.old.marked }
{
    let adds = rows.len() as u64;
    if let Some(why) = overfull(table, adds) {
        return Ok(SeqReply::Refused(why));
    }
    table.insert(rows)?;
    Ok(SeqReply::Inserted(adds))
}

/// Takes the rows that meet the condition out of the table, or all where there is none. After an `Err` the table is as
/// before. O(n), where n rows are stored, and O(1) expected more for each that goes.
pub fn delete(table: &mut TableRows, cond: &Option<Cond>) -> Result<SeqReply, AllocError>
    ensures told { IfOk result (λ reply. reply
        ≡ Deleted (mass (filtered (meets cond.now) (entries table.old.present)))) }
    ensures ok { OnOk result (table.new.present ≡ added table.old.present
        (negated (filtered (meets cond.now) (entries table.old.present)))) }
    ensures err { OnErr result (table.new.present ≡ table.old.present) }
    ensures marked { table.new.marked ≡ table.old.marked }
{
    Ok(SeqReply::Deleted(table.delete(cond)?))
}
