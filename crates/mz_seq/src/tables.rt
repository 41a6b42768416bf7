//! The tables that there are, and those that there were at a mark.
ghost use Rattle.std.specs.Prelude.{◌≡◌, ◌∷◌, ◌++◌, ◌<◌, ◌==◌, ◌&&◌, [], None, true, filter, map, length, position, vec_len, vec_capacity, IfOk, IfSome, OnErr};
ghost use Rattle.std.specs.FinMap.{empty, entries};
ghost use Rattle.mz_bag.specs.Mass.{mass};
ghost use Rattle.mz_bag.specs.Weighted.{each_once, negated};
ghost use Rattle.mz_plan.specs.Operators.{filtered};
ghost use Rattle.mz_log.specs.Sequential.{bag_at, with_rows, without_bag};
ghost use Rattle.mz_log.specs.CarriedOut.{meets, overfull, rows_in};
ghost use Rattle.mz_log.specs.declared.reply.SeqReply.TheVariants.{Inserted, Deleted};
ghost use Rattle.mz_seq.specs.Tables.{bags_had, bags_now, bags_then, has_bag, settled, AreApart};
ghost use Rattle.mz_seq.specs.Told.{ComesTo};

use crate::{TableRows, delete, insert};
use mz_log::SeqReply;
use mz_plan::Cond;
use mz_value::Row;
use std::alloc::{AllocError, Global};

/// A table that there is, or was at the mark.
#[derive(Drop)]
pub struct Table {
    /// Its number.
    pub number: u64,
    /// Its rows.
    pub rows: TableRows,
    /// Whether there was such a table at the mark.
    pub was: bool,
    /// Whether there is such a table.
    pub is: bool,
}

// Whether this is the table of this number, and there is such a table.
fn is_at(table: &Table, number: u64) -> bool
    ensures { result ≡ (table.now.is && table.now.number == number) }
{
    table.is && table.number == number
}

// The place of the table of this number, where there is one. O(n), where there are n tables.
fn first_at(tables: &[Table], number: u64) -> Option<usize>
    ensures { result ≡ position (λ table. table.is && table.number == number) tables.now }
{
    tables
        .iter()
        .position(|table| table.is && table.number == number)
}

// A place where a table of this number is or was, found in halves. O(log n), where there are n tables.
fn searched(tables: &[Table], number: u64) -> Option<usize>
    ensures { IfSome result (λ place. place < length tables.now) }
{
    tables
        .binary_search_by_key(&number, |table| table.number)
        .ok()
}

// The place of the table of this number, where there is one. A later table has a greater number, so one that is there is
// found in halves, and the walk only tells that none is. O(log n), where there are n tables, and O(n) where none is.
fn place_of(tables: &[Table], number: u64) -> Option<usize>
    requires { AreApart (bags_now tables.now) }
    ensures { result ≡ position (λ table. table.is && table.number == number) tables.now }
{
    match searched(tables, number) {
        Some(place) if is_at(&tables[place], number) => Some(place),
        _ => first_at(tables, number),
    }
}

/// Puts a new table last. Takes no memory, since there is room.
pub fn push(alloc: Global, tables: &mut Vec<Table>, number: u64)
    requires { vec_len tables.old < vec_capacity tables.old }
    ensures now { bags_now tables.new.items ≡ bags_now tables.old.items ++ (number, empty) ∷ [] }
    ensures then { bags_then tables.new.items ≡ bags_then tables.old.items }
    ensures had { bags_had tables.new.items ≡ bags_had tables.old.items ++ (number, empty) ∷ [] }
{
    tables.push_reserved(Table {
        number,
        rows: TableRows::empty(alloc),
        was: false,
        is: true,
    });
}

/// Takes the table of this number away, where there is one: at the mark it stays. Takes no memory. O(log n), where there are
/// n tables, and O(n) where none has the number.
pub fn take_away(tables: &mut Vec<Table>, number: u64)
    requires { AreApart (bags_now tables.old.items) }
    ensures now { bags_now tables.new.items ≡ without_bag number (bags_now tables.old.items) }
    ensures then { bags_then tables.new.items ≡ bags_then tables.old.items }
    ensures had { bags_had tables.new.items ≡ without_bag number (bags_had tables.old.items) }
{
    if let Some(place) = place_of(tables, number) {
        tables[place].is = false;
    }
}

/// Adds rows to the table of this number, unless it would have more than a table may. After an `Err` all are as before.
pub fn insert_into(
    tables: &mut Vec<Table>,
    number: u64,
    rows: &[Row],
) -> Result<SeqReply, AllocError>
    requires there { has_bag number (bags_now tables.old.items) ≡ true }
    requires apart { AreApart (bags_now tables.old.items) }
    ensures told { IfOk result (λ reply. ComesTo
        (overfull (rows_in (bag_at (bags_now tables.old.items) number)) (length rows.now))
        (Inserted (length rows.now))
        (with_rows number (each_once rows.now) (bags_now tables.old.items))
        (bags_now tables.old.items) (bags_now tables.new.items) reply) }
    ensures err { OnErr result (bags_now tables.new.items ≡ bags_now tables.old.items) }
    ensures marked { bags_then tables.new.items ≡ bags_then tables.old.items }
    ensures had { bags_had tables.new.items ≡ bags_had tables.old.items }
{
    match place_of(tables, number) {
        Some(place) => insert(&mut tables[place].rows, rows),
        None => unreachable!(),
    }
}

/// Takes the rows that meet the condition out of the table of this number. After an `Err` all are as before.
pub fn delete_from(
    tables: &mut Vec<Table>,
    number: u64,
    cond: &Option<Cond>,
) -> Result<SeqReply, AllocError>
    requires there { has_bag number (bags_now tables.old.items) ≡ true }
    requires apart { AreApart (bags_now tables.old.items) }
    ensures told { IfOk result (λ reply. ComesTo None
        (Deleted (mass (filtered (meets cond.now) (entries (bag_at (bags_now tables.old.items) number)))))
        (with_rows number
        (negated (filtered (meets cond.now) (entries (bag_at (bags_now tables.old.items) number))))
        (bags_now tables.old.items))
        (bags_now tables.old.items) (bags_now tables.new.items) reply) }
    ensures err { OnErr result (bags_now tables.new.items ≡ bags_now tables.old.items) }
    ensures marked { bags_then tables.new.items ≡ bags_then tables.old.items }
    ensures had { bags_had tables.new.items ≡ bags_had tables.old.items }
{
    match place_of(tables, number) {
        Some(place) => delete(&mut tables[place].rows, cond),
        None => unreachable!(),
    }
}

// Keeps the tables that there are.
fn keep_present(tables: &mut Vec<Table>)
    ensures { tables.new.items ≡ filter (λ table. table.is) tables.old.items }
{
    tables.retain(|table| table.is);
}

// Keeps the tables that there were at the mark.
fn keep_marked(tables: &mut Vec<Table>)
    ensures { tables.new.items ≡ filter (λ table. table.was) tables.old.items }
{
    tables.retain(|table| table.was);
}

// Sets the mark of a table that there is.
fn mark_one(table: &mut Table)
    ensures { table.new ≡ settled table.old.number table.old.rows.present }
{
    table.rows.mark();
    table.was = true;
    table.is = true;
}

// Takes a table back to its mark.
fn back_one(table: &mut Table)
    ensures { table.new ≡ settled table.old.number table.old.rows.marked }
{
    table.rows.back();
    table.was = true;
    table.is = true;
}

// Sets the mark of each table.
fn mark_each(tables: &mut Vec<Table>)
    ensures { tables.new.items ≡ map (λ table. settled table.number table.rows.present) tables.old.items }
{
    'places: for place in 0..tables.len() {
        mark_one(&mut tables[place]);
    }
}

// Takes each table back to its mark.
fn back_each(tables: &mut Vec<Table>)
    ensures { tables.new.items ≡ map (λ table. settled table.number table.rows.marked) tables.old.items }
{
    'places: for place in 0..tables.len() {
        back_one(&mut tables[place]);
    }
}

/// Sets the mark: the tables of now can be gone back to. Takes no memory.
pub fn mark(tables: &mut Vec<Table>)
    ensures now { bags_now tables.new.items ≡ bags_now tables.old.items }
    ensures then { bags_then tables.new.items ≡ bags_now tables.old.items }
    ensures had { bags_had tables.new.items ≡ bags_now tables.old.items }
{
    keep_present(tables);
    mark_each(tables);
}

/// Goes back to the tables of the mark. Takes no memory.
pub fn back(tables: &mut Vec<Table>)
    ensures now { bags_now tables.new.items ≡ bags_then tables.old.items }
    ensures then { bags_then tables.new.items ≡ bags_then tables.old.items }
    ensures had { bags_had tables.new.items ≡ bags_then tables.old.items }
{
    keep_marked(tables);
    back_each(tables);
}
