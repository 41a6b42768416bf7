//! The columns that a select sees, and which of them a name means.
ghost use Rattle.std.specs.Prelude.{◌≡◌, ◌++◌, length, map, IfOk, OnOk, bytes_eq, is_some, None, option_map, if◌then◌else◌};
ghost use Rattle.mz_resolution.specs.Columns.{columns_from, columns_of, is_clear, is_of, may_mean, meant, only_one, sight_of};
ghost use Rattle.mz_resolution.specs.Resolution.{table_sight};
ghost use Rattle.mz_select.specs.Gives.{Gives};

use crate::faults::unknown_column;
use mz_refusal::CallFault;
use mz_resolution::Referred;
use mz_statement::{Column, ColumnName, ColumnType};
use mz_value::Name;
use std::alloc::{AllocError, Global};
use std::marker::Model;

/// A column that a select sees.
#[derive(Drop)]
pub struct SeenColumn<'a> {
    // Its place among all columns.
    place: u64,
    // The number of its reference.
    owner: u64,
    // Its place in the rows of its reference.
    within: u64,
    // What its reference is called.
    called: &'a Name,
    // Its name and type.
    column: &'a Column,
}

impl<'a> Model for SeenColumn<'a> {
    ghost use Rattle.mz_resolution.specs.Columns.{SeenColumn as Seen};

    ghost Value = { Seen };

    ghost view = { λ s. record {
      place = s.place;
      owner = s.owner;
      within = s.within;
      called = s.called.now;
      name = s.column.now.name;
      kind = s.column.now.kind;
    } };
}

impl<'a> SeenColumn<'a> {
    /// Its place among all columns, from 0. Takes no memory.
    pub fn place(&self) -> u64
        ensures { result ≡ self.now.place }
    {
        self.place
    }

    /// The number of its reference, from 0. Takes no memory.
    pub fn owner(&self) -> u64
        ensures { result ≡ self.now.owner }
    {
        self.owner
    }

    /// Its place in the rows of its reference, from 0. Takes no memory.
    pub fn within(&self) -> u64
        ensures { result ≡ self.now.within }
    {
        self.within
    }

    /// Its type. Takes no memory.
    pub fn kind(&self) -> ColumnType
        ensures { result ≡ self.now.kind }
    {
        self.column.kind
    }

    /// Its name. Takes no memory.
    pub fn name(&self) -> &'a Name
        ensures { result.now ≡ self.now.name }
    {
        &self.column.name
    }

    // What its reference is called.
    fn called(&self) -> &'a Name
        ensures { result.now ≡ self.now.called }
    {
        self.called
    }
}

/// What a select sees.
#[derive(Drop)]
pub struct Sight<'a> {
    // What each reference is called.
    called: Vec<&'a Name>,
    // The columns of all references, side by side.
    columns: Vec<SeenColumn<'a>>,
}

impl<'a> Model for Sight<'a> {
    ghost use Rattle.std.specs.Prelude.{map};
    ghost use Rattle.mz_resolution.specs.Columns.{Sight as Seen};

    ghost Value = { Seen };

    ghost view = { λ v. record {
      called = map (λ name. name.now) v.called.items;
      columns = v.columns.items;
    } };
}

// Whether a column with this qualifier may be of what is called so.
fn is_of(qualifier: &Option<Name>, called: &Name) -> bool
    ensures { result ≡ is_of qualifier.now called.now }
{
    match qualifier {
        Some(qualifier) => *qualifier == *called,
        None => true,
    }
}

// Whether the name may mean the column.
fn may_mean<'a>(column: &ColumnName, seen: &SeenColumn<'a>) -> bool
    ensures { result ≡ may_mean column.now seen.now }
{
    column.name == *seen.name() && is_of(&column.qualifier, seen.called())
}

// The one column that the name may mean, where there is exactly one.
fn only_meant<'s, 'a>(
    column: &ColumnName,
    columns: &'s [SeenColumn<'a>],
) -> Option<&'s SeenColumn<'a>>
    ensures { option_map (λ seen. seen.now) result ≡ only_one (may_mean column.now) columns.now }
{
    let mut found = None;
    'columns: for seen in columns {
        if may_mean(column, seen) {
            if found.is_some() {
                return None;
            }
            found = Some(seen);
        }
    }
    found
}

// Whether exactly one of these is the name.
fn is_called_once(name: &Name, called: &[&Name]) -> bool
    ensures { result ≡ is_some (only_one (bytes_eq name.now) (map (λ other. other.now) called.now)) }
{
    let mut found = false;
    'called: for other in called {
        if *name == **other {
            if found {
                return false;
            }
            found = true;
        }
    }
    found
}

// Whether exactly one reference is called as the qualifier, where there is one.
fn is_clear(qualifier: &Option<Name>, called: &[&Name]) -> bool
    ensures { result ≡ is_clear qualifier.now (map (λ other. other.now) called.now) }
{
    match qualifier {
        Some(qualifier) => is_called_once(qualifier, called),
        None => true,
    }
}

// Puts the columns of a reference behind others.
fn push_columns<'a>(
    seen: &mut Vec<SeenColumn<'a>>,
    owner: u64,
    called: &'a Name,
    columns: &'a [Column],
) -> Result<(), AllocError>
    ensures { OnOk result (seen.new.items
        ≡ seen.old.items ++ columns_of (length seen.old.items) owner called.now 0 columns.now) }
{
    'columns: for (within, column) in columns.iter().enumerate() {
        seen.push(SeenColumn {
            place: seen.len() as u64,
            owner,
            within: within as u64,
            called,
            column,
        })?;
    }
    Ok(())
}

// The columns of references, side by side.
fn columns_of_all<'a>(
    alloc: Global,
    references: &'a [Referred],
) -> Result<Vec<SeenColumn<'a>>, AllocError>
    ensures { IfOk result (λ columns. columns.items ≡ columns_from 0 0 references.now) }
{
    let mut seen = Vec::new(alloc);
    'references: for (owner, reference) in references.iter().enumerate() {
        let columns = reference.relation.columns.as_slice();
        push_columns(&mut seen, owner as u64, &reference.called, columns)?;
    }
    Ok(seen)
}

// What references are called.
fn names_of<'a>(alloc: Global, references: &'a [Referred]) -> Result<Vec<&'a Name>, AllocError>
    ensures { IfOk result (λ names.
        map (λ name. name.now) names.items ≡ map (λ r. r.called) references.now) }
{
    let mut names = Vec::with_capacity(alloc, references.len())?;
    'references: for reference in references {
        names.push(&reference.called)?;
    }
    Ok(names)
}

impl<'a> Sight<'a> {
    /// What a select over these references sees. Memory and time follow their columns.
    pub fn of_references(alloc: Global, references: &'a [Referred]) -> Result<Sight<'a>, AllocError>
        ensures { IfOk result (λ sight. sight ≡ sight_of references.now) }
    {
        Ok(Sight {
            called: names_of(alloc, references)?,
            columns: columns_of_all(alloc, references)?,
        })
    }

    /// What a condition over one table sees. Memory and time follow its columns.
    pub fn of_table(
        alloc: Global,
        table: &'a Name,
        columns: &'a [Column],
    ) -> Result<Sight<'a>, AllocError>
        ensures { IfOk result (λ sight. sight ≡ table_sight table.now columns.now) }
    {
        let mut seen = Vec::new(alloc);
        push_columns(&mut seen, 0, table, columns)?;
        let mut called = Vec::new(alloc);
        called.push(table)?;
        Ok(Sight {
            called,
            columns: seen,
        })
    }

    /// The columns. Takes no memory.
    pub fn columns(&self) -> &[SeenColumn<'a>]
        ensures { result.now ≡ self.now.columns }
    {
        &self.columns
    }

    // The column that a name means, where it means one.
    fn found(&self, column: &ColumnName) -> Option<&SeenColumn<'a>>
        ensures { option_map (λ seen. seen.now) result
            ≡ (if is_clear column.now.qualifier self.now.called
            then only_one (may_mean column.now) self.now.columns else None) }
    {
        if is_clear(&column.qualifier, &self.called) {
            only_meant(column, &self.columns)
        } else {
            None
        }
    }

    /// The column that a name means. Time follows the columns.
    pub fn meant(&self, alloc: Global, column: &ColumnName) -> Result<&SeenColumn<'a>, CallFault>
        ensures { Gives (λ seen. seen.now) result (meant self.now column.now) }
    {
        match self.found(column) {
            Some(seen) => Ok(seen),
            None => Err(CallFault::Refused(unknown_column(alloc, column)?)),
        }
    }
}
