//! The sequential object.
ghost use Rattle.std.specs.Prelude.{◌≡◌, ◌<◌, ◌++◌, ◌∷◌, [], None, true, false, codes, length, vec_len, vec_capacity, IfOk, OnErr, IsSome};
ghost use Rattle.std.specs.FinMap.{entries};
ghost use Rattle.mz_value.specs.Name.{is_name};
ghost use Rattle.mz_bag.specs.Mass.{mass};
ghost use Rattle.mz_bag.specs.Weighted.{each_once, negated};
ghost use Rattle.mz_plan.specs.Items.{dependents, is_table, numbered};
ghost use Rattle.mz_plan.specs.Operators.{filtered};
ghost use Rattle.mz_plan.specs.declared.item.ItemKind.TheVariants as kind;
ghost use Rattle.mz_catalog.specs.CatalogState.{IsCatalog};
ghost use Rattle.mz_log.specs.Sequential.{bag_at, changed, changes_between, int_column, kv, opening_database, Made, Removed, Moved};
ghost use Rattle.mz_log.specs.CarriedOut.{held_back, meets, next_item, overfull, rows_in, unmakable};
ghost use Rattle.mz_log.specs.declared.reply.SeqReply.TheVariants.{Created, Dropped, Inserted, Deleted};
ghost use Rattle.mz_seq.specs.Asked.{HasTable, IsAsked};
ghost use Rattle.mz_seq.specs.Done.{is_query, IsDone};
ghost use Rattle.mz_seq.specs.Tables.{bags_had, bags_now, bags_then, catalog_of, changes_of, gone_bags, made_bags, AreApart};
ghost use Rattle.mz_seq.specs.Told.{ComesTo};

use crate::TableRows;
use crate::bags::copied_bags;
use crate::marked_catalog::MarkedCatalog;
use crate::tables::{Table, back, delete_from, insert_into, mark, push, take_away};
use mz_bag::Bag;
use mz_catalog::Catalog;
use mz_log::SeqReply;
use mz_plan::{Cond, Item, ItemKind, Plan, Resolved};
use mz_statement::{Column, ColumnType, Columns, Statement};
use mz_value::{Name, Row};
use std::alloc::{AllocError, Global};
use std::marker::Model;

/// The items, and the rows of the tables, as they are and as they were at a mark.
#[derive(Drop)]
pub struct Seq {
    // The items.
    catalog: MarkedCatalog,
    // The tables that there are or were, in order of creation.
    tables: Vec<Table>,
}

impl Model for Seq {
    ghost use Rattle.std.specs.Coded.{coded_list, coded_ℤ};
    ghost use Rattle.std.specs.FinMap as map;
    ghost use Rattle.mz_value.specs.contracts.datum.Datum as datum;
    ghost use Rattle.mz_plan.specs.contracts.item.Item as the_item;
    ghost use Rattle.mz_log.specs.Sequential.{Database};
    ghost use Rattle.mz_seq.specs.Tables.{bags_had, bags_now, bags_then, database_code, database_of, IsRound};
    ghost use Rattle.mz_marked.specs.Twice.{Twice, twice_code};

    ghost Value = { Twice Database };

    ghost coded = { twice_code
        (database_code the_item.the_row.coded (map.code (coded_list datum.the_row.coded) coded_ℤ)) };

    ghost view = { λ s. record {
      present = database_of s.catalog.present (bags_now s.tables.items);
      marked = database_of s.catalog.marked (bags_then s.tables.items);
    } };

    ghost invariant = { λ s. IsRound
        (database_of s.catalog.present (bags_now s.tables.items))
        (database_of s.catalog.marked (bags_then s.tables.items))
        (bags_had s.tables.items) };
}

// Whether what is of this kind is a table.
fn is_table(kind: &ItemKind) -> bool
    ensures { result ≡ is_table kind.now }
{
    matches!(kind, ItemKind::Table(_))
}

// Puts a table last, where the item that was made is one. Takes no memory, since there is room.
fn note_made(alloc: Global, tables: &mut Vec<Table>, reply: &SeqReply, is_table: bool)
    requires { vec_len tables.old < vec_capacity tables.old }
    ensures now { bags_now tables.new.items
        ≡ bags_now tables.old.items ++ made_bags is_table reply.now }
    ensures then { bags_then tables.new.items ≡ bags_then tables.old.items }
    ensures had { bags_had tables.new.items
        ≡ bags_had tables.old.items ++ made_bags is_table reply.now }
{
    if is_table {
        if let SeqReply::Created(id) = reply {
            push(alloc, tables, *id);
        }
    }
}

// Takes the table of an item away that was removed, where it is one.
fn note_gone(tables: &mut Vec<Table>, reply: &SeqReply, id: u64)
    requires { AreApart (bags_now tables.old.items) }
    ensures now { bags_now tables.new.items
        ≡ gone_bags reply.now id (bags_now tables.old.items) }
    ensures then { bags_then tables.new.items ≡ bags_then tables.old.items }
    ensures had { bags_had tables.new.items ≡ gone_bags reply.now id (bags_had tables.old.items) }
{
    if let SeqReply::Dropped = reply {
        take_away(tables, id);
    }
}

// A column of type INT.
fn int_column(alloc: Global, name: &[u8]) -> Result<Column, AllocError>
    requires { is_name name.now ≡ true }
    ensures { IfOk result (λ column. column ≡ int_column name.now) }
{
    Ok(Column {
        name: Name::new(alloc, name)?,
        kind: ColumnType::Int,
    })
}

// The columns of the table `kv`.
fn kv_columns(alloc: Global) -> Result<Vec<Column>, AllocError>
    ensures { IfOk result (λ columns. columns.items
        ≡ int_column (codes "k") ∷ int_column (codes "v") ∷ []) }
{
    let mut columns = Vec::new(alloc);
    columns.push(int_column(alloc, b"k".as_slice())?)?;
    columns.push(int_column(alloc, b"v".as_slice())?)?;
    Ok(columns)
}

// The table `kv`.
fn kv(alloc: Global) -> Result<Item, AllocError>
    ensures { IfOk result (λ item. item ≡ kv) }
{
    let columns = Columns::from_vec(kv_columns(alloc)?);
    Ok(Item {
        id: 1,
        name: Name::new(alloc, b"kv".as_slice())?,
        cluster: 0,
        kind: ItemKind::Table(columns),
    })
}

// The catalog at the opening.
fn opening_catalog(alloc: Global) -> Result<Catalog, AllocError>
    ensures { IfOk result (λ catalog. catalog ≡ catalog_of opening_database) }
{
    let mut catalog = Catalog::empty(alloc);
    let kv = kv(alloc)?;
    match catalog.add(kv) {
        Ok(_) => Ok(catalog),
        Err(_) => Err(AllocError),
    }
}

// The tables at the opening.
fn opening_tables(alloc: Global) -> Result<Vec<Table>, AllocError>
    ensures now { IfOk result (λ tables. bags_now tables.items ≡ opening_database.bags) }
    ensures then { IfOk result (λ tables. bags_then tables.items ≡ opening_database.bags) }
    ensures had { IfOk result (λ tables. bags_had tables.items ≡ opening_database.bags) }
{
    let mut tables = Vec::new(alloc);
    tables.push(Table {
        number: 1,
        rows: TableRows::empty(alloc),
        was: true,
        is: true,
    })?;
    Ok(tables)
}

impl Seq {
    /// The opening: there is the table `kv` alone, without a row, now and at the mark.
    pub fn fresh(alloc: Global) -> Result<Seq, AllocError>
        ensures present { IfOk result (λ seq. seq.present ≡ opening_database) }
        ensures marked { IfOk result (λ seq. seq.marked ≡ opening_database) }
    {
        let catalog = MarkedCatalog::marked(opening_catalog(alloc)?);
        let tables = opening_tables(alloc)?;
        Ok(Seq { catalog, tables })
    }

    /// The catalog. Takes no memory.
    pub fn catalog(&self) -> &Catalog
        ensures now { result.now ≡ catalog_of self.now.present }
        ensures catalog { IsCatalog (catalog_of self.now.present) }
    {
        self.catalog.catalog()
    }

    // Makes an item with these columns.
    fn create(&mut self, columns: &[Column], item: Item) -> Result<SeqReply, AllocError>
        ensures told { IfOk result (λ reply. ComesTo
            (unmakable self.old.present.items item.name columns.now)
            (Created self.old.present.next)
            (changed self.old.present (Made (record item { id = self.old.present.next })))
            self.old.present self.new.present reply) }
        ensures err { OnErr result (self.new.present ≡ self.old.present) }
        ensures marked { self.new.marked ≡ self.old.marked }
    {
        let alloc = *self.tables.allocator();
        self.tables.reserve(1)?;
        let is_table = is_table(&item.kind);
        let reply = self.catalog.make(alloc, columns, item)?;
        note_made(alloc, &mut self.tables, &reply, is_table);
        Ok(reply)
    }

    // Makes a table. O(n^2), where there are n columns, beside what any item costs.
    fn create_table(&mut self, name: Name, columns: Columns) -> Result<SeqReply, AllocError>
        ensures told { IfOk result (λ reply. ComesTo
            (unmakable self.old.present.items name columns)
            (Created self.old.present.next)
            (changed self.old.present (Made (next_item self.old.present name 0 (kind.Table columns))))
            self.old.present self.new.present reply) }
        ensures err { OnErr result (self.new.present ≡ self.old.present) }
        ensures marked { self.new.marked ≡ self.old.marked }
    {
        let copy = columns.try_copy(*self.tables.allocator())?;
        let kind = ItemKind::Table(columns);
        self.create(
            copy.as_slice(),
            Item {
                id: 0,
                name,
                cluster: 0,
                kind,
            },
        )
    }

    // Makes a view.
    fn create_view(
        &mut self,
        name: Name,
        columns: Columns,
        query: Statement,
    ) -> Result<SeqReply, AllocError>
        ensures told { IfOk result (λ reply. ComesTo
            (unmakable self.old.present.items name columns)
            (Created self.old.present.next)
            (changed self.old.present
            (Made (next_item self.old.present name 0 (kind.View columns query))))
            self.old.present self.new.present reply) }
        ensures err { OnErr result (self.new.present ≡ self.old.present) }
        ensures marked { self.new.marked ≡ self.old.marked }
    {
        let copy = columns.try_copy(*self.tables.allocator())?;
        let kind = ItemKind::View(columns, query);
        self.create(
            copy.as_slice(),
            Item {
                id: 0,
                name,
                cluster: 0,
                kind,
            },
        )
    }

    // Makes an index.
    fn create_index(
        &mut self,
        name: Name,
        on: u64,
        plan: Plan,
        cluster: u64,
    ) -> Result<SeqReply, AllocError>
        ensures told { IfOk result (λ reply. ComesTo
            (unmakable self.old.present.items name [])
            (Created self.old.present.next)
            (changed self.old.present
            (Made (next_item self.old.present name cluster (kind.Index on plan))))
            self.old.present self.new.present reply) }
        ensures err { OnErr result (self.new.present ≡ self.old.present) }
        ensures marked { self.new.marked ≡ self.old.marked }
    {
        let kind = ItemKind::Index(on, plan);
        self.create(
            &[],
            Item {
                id: 0,
                name,
                cluster,
                kind,
            },
        )
    }

    // Removes the item of this number.
    fn remove(&mut self, id: u64) -> Result<SeqReply, AllocError>
        requires { IsSome (numbered id self.old.present.items) }
        ensures told { IfOk result (λ reply. ComesTo
            (held_back (dependents id self.old.present.items))
            Dropped
            (changed self.old.present (Removed id))
            self.old.present self.new.present reply) }
        ensures err { OnErr result (self.new.present ≡ self.old.present) }
        ensures marked { self.new.marked ≡ self.old.marked }
    {
        let _catalog = self.catalog.catalog();
        let reply = self.catalog.remove(id)?;
        note_gone(&mut self.tables, &reply, id);
        Ok(reply)
    }

    // Adds rows to the table of this number.
    fn insert(&mut self, table: u64, rows: &[Row]) -> Result<SeqReply, AllocError>
        requires { HasTable self.old.present.items table }
        ensures told { IfOk result (λ reply. ComesTo
            (overfull (rows_in (bag_at self.old.present.bags table)) (length rows.now))
            (Inserted (length rows.now))
            (changed self.old.present (Moved table (each_once rows.now)))
            self.old.present self.new.present reply) }
        ensures err { OnErr result (self.new.present ≡ self.old.present) }
        ensures marked { self.new.marked ≡ self.old.marked }
    {
        let _catalog = self.catalog.catalog();
        insert_into(&mut self.tables, table, rows)
    }

    // Takes the rows that meet the condition out of the table of this number.
    fn delete(&mut self, table: u64, cond: &Option<Cond>) -> Result<SeqReply, AllocError>
        requires { HasTable self.old.present.items table }
        ensures told { IfOk result (λ reply. ComesTo None
            (Deleted (mass (filtered (meets cond.now) (entries (bag_at self.old.present.bags table)))))
            (changed self.old.present (Moved table
            (negated (filtered (meets cond.now) (entries (bag_at self.old.present.bags table))))))
            self.old.present self.new.present reply) }
        ensures err { OnErr result (self.new.present ≡ self.old.present) }
        ensures marked { self.new.marked ≡ self.old.marked }
    {
        let _catalog = self.catalog.catalog();
        delete_from(&mut self.tables, table, cond)
    }

    /// Carries out a command that a statement asks for in this catalog, which is no query. Whatever the plans of indexes
    /// are, it is told and leaves what the sequential object does. After an `Err` all is as before. An INSERT costs
    /// O(rows named) expected, a DELETE one scan of its table, each with O(log tables) to find it; a CREATE costs O(1)
    /// expected and a DROP O(items), beside one copy of the catalog in the first of these since the mark.
    pub fn apply(&mut self, asked: Resolved) -> Result<SeqReply, AllocError>
        requires asked { IsAsked self.old.present.items asked }
        requires no_query { is_query asked ≡ false }
        ensures done { IfOk result
            (λ reply. IsDone asked self.old.present self.new.present reply) }
        ensures err { OnErr result (self.new.present ≡ self.old.present) }
        ensures marked { self.new.marked ≡ self.old.marked }
    {
        let _catalog = self.catalog.catalog();
        match asked {
            Resolved::CreateTable(name, columns) => self.create_table(name, columns),
            Resolved::CreateView(name, columns, query) => self.create_view(name, columns, query),
            Resolved::CreateIndex(name, on, plan, cluster) => {
                self.create_index(name, on, plan, cluster)
            }
            Resolved::Drop(id) => self.remove(id),
            Resolved::Insert(table, rows) => self.insert(table, rows.as_slice()),
            Resolved::Delete(table, cond) => self.delete(table, &cond),
            Resolved::Query(_) => unreachable!(),
        }
    }

    /// Starts a round: what there is now can be gone back to. Takes no memory. O(1) for each table, and O(1) expected for
    /// each row that changed since the last mark.
    pub fn start_round(&mut self)
        ensures present { self.new.present ≡ self.old.present }
        ensures marked { self.new.marked ≡ self.old.present }
    {
        self.catalog.mark();
        mark(&mut self.tables);
    }

    /// The tables that there are or were, in order of creation. Each that there is tells what came to it since the mark.
    /// Takes no memory. O(1).
    pub fn changes(&self) -> &[Table]
        ensures { changes_of result.now
            ≡ changes_between self.now.marked.bags self.now.present.bags }
    {
        &self.tables
    }

    /// A copy of the rows of each table, in order of creation. O(n) expected, and O(tables), where n rows are stored.
    pub fn bags(&self) -> Result<Vec<(u64, Bag)>, AllocError>
        ensures { IfOk result (λ bags. bags.items ≡ self.now.present.bags) }
    {
        copied_bags(*self.tables.allocator(), &self.tables)
    }

    /// Gives the round up: all is as it was when it was started, the next number too. Takes no memory. O(1) for each table,
    /// and O(1) expected for each row that changed since.
    pub fn abandon_round(&mut self)
        ensures present { self.new.present ≡ self.old.marked }
        ensures marked { self.new.marked ≡ self.old.marked }
    {
        self.catalog.back();
        back(&mut self.tables);
    }
}
