//! Views that read one item alone, resolved with it: its plan is moved into theirs and not copied.
ghost use Rattle.std.specs.Prelude.{◌≡◌, Some, Ok, IfOk, IfSome, IsTrue};
ghost use Rattle.mz_plan.specs.Items.{numbered};
ghost use Rattle.mz_select.specs.Gives.{Is};
ghost use Rattle.mz_resolve.specs.InCatalog.{scope_in};
ghost use Rattle.mz_resolve.specs.Known.{stands_at};
ghost use Rattle.mz_resolve.specs.Lone.{Finds, IsLone, IsOnly, queried_over, view_over};
ghost use Rattle.mz_resolve.specs.Waiting.{AreThere, Climbs};

use crate::known::{Kept, kept_of};
use crate::lookups::{item_below, query_of};
use crate::queries::{select_over, united};
use crate::relations::{name_or, plan_and_tables, relation_of, without_number};
use crate::wanted::Wanted;
use mz_catalog::Catalog;
use mz_plan::{Item, ItemKind};
use mz_refusal::CallFault;
use mz_resolution::{NamedRelation, Referred, Relation};
use mz_statement::{Columns, Select};
use mz_value::Name;
use std::alloc::{AllocError, Global};

// A view that reads one item alone.
#[derive(Drop)]
struct Lone<'c> {
    // The columns of the view.
    columns: &'c Columns,
    // The select that it stands for.
    select: &'c Select,
}

// The only select of a query, where it has no JOINs. Takes no memory.
fn only(selects: &[Select]) -> Option<&Select>
    ensures { IfSome result (λ select. IsOnly selects.now select.now) }
{
    match selects {
        [select] if select.joins.as_slice().is_empty() => Some(select),
        _ => None,
    }
}

// Whether a name finds the item of this number among those whose numbers are below another. Takes no memory.
fn finds(catalog: &Catalog, below: u64, name: &Name, id: u64) -> bool
    ensures { IsTrue result → Finds catalog.now below name.now id }
{
    match item_below(catalog, below, name) {
        Some(item) => item.id == id,
        None => false,
    }
}

// The view, where it reads the item of this number alone. Takes no memory. O(1) expected.
fn lone_over<'c>(catalog: &Catalog, view: &'c Item, id: u64) -> Option<Lone<'c>>
    ensures { IfSome result
        (λ lone. IsLone catalog.now view.now lone.columns.now lone.select.now id) }
{
    let ItemKind::View(columns, query) = &view.kind else {
        return None;
    };
    let select = only(query_of(query))?;
    if finds(catalog, view.id, &select.first.name, id) {
        Some(Lone { columns, select })
    } else {
        None
    }
}

// Whether what an item stands for is moved into a view, and not kept: unless its plan is a leaf, of which a copy
// costs nothing, or the statement itself names the item. No clause speaks of it, since it decides no result.
fn is_moved(wanted: &Wanted, id: u64, kept: &Kept) -> bool {
    match kept {
        Ok(found) => found.relation.plan.first().is_some() && !wanted.contains(&id),
        Err(_) => true,
    }
}

// The view, where it reads the item of this number alone and takes over what that stands for.
fn lone_above<'c>(
    catalog: &Catalog,
    wanted: &Wanted,
    view: &'c Item,
    id: u64,
    kept: &Kept,
) -> Option<Lone<'c>>
    ensures { IfSome result
        (λ lone. IsLone catalog.now view.now lone.columns.now lone.select.now id) }
{
    if is_moved(wanted, id, kept) {
        lone_over(catalog, view, id)
    } else {
        None
    }
}

// The relation of a query of one select without JOINs, over the relation that it reads.
fn queried_over(alloc: Global, select: &Select, found: Relation) -> Result<Relation, CallFault>
    ensures { Is result (queried_over select.now found) }
{
    let first = Referred {
        called: name_or(alloc, &select.first.alias, &select.first.name)?,
        relation: found,
    };
    let whole = select_over(alloc, first, Vec::new(alloc), select)?;
    united(alloc, whole, Vec::new(alloc))
}

// What a view stands for over what the item does that it reads alone. No plan is copied.
fn view_over<'c>(
    alloc: Global,
    catalog: &Catalog,
    cluster: u64,
    view: u64,
    lone: &Lone<'c>,
    found: NamedRelation,
) -> Result<NamedRelation, CallFault>
    ensures { Is result (view_over (scope_in catalog.now cluster) view
        lone.now.columns.now lone.now.select.now (Ok found)) }
{
    let below = queried_over(alloc, lone.select, without_number(found))?;
    let columns = lone.columns.try_copy(alloc)?;
    let (plan, tables) = plan_and_tables(below);
    Ok(relation_of(catalog, cluster, view, columns, plan, tables))
}

// The same where the item may be refused: the view is refused alike.
fn kept_over<'c>(
    alloc: Global,
    catalog: &Catalog,
    cluster: u64,
    view: u64,
    lone: &Lone<'c>,
    kept: Kept,
) -> Result<Kept, AllocError>
    ensures { IfOk result (λ over. over ≡ view_over (scope_in catalog.now cluster) view
        lone.now.columns.now lone.now.select.now kept) }
{
    match kept {
        Ok(found) => kept_of(view_over(alloc, catalog, cluster, view, lone, found)),
        Err(refusal) => Ok(Err(refusal)),
    }
}

/// The topmost of an item and the views that wait in front of it and each read the one behind alone, and what it
/// stands for, by what the item does. None of them waits any longer, and no plan is copied.
pub fn climb(
    alloc: Global,
    catalog: &Catalog,
    cluster: u64,
    wanted: &Wanted,
    waiting: &mut Vec<u64>,
    id: u64,
    kept: Kept,
) -> Result<(u64, Kept), AllocError>
    requires there { AreThere catalog.now.items waiting.old.items }
    requires stands { stands_at catalog.now cluster id ≡ Some kept }
    ensures { IfOk result
        (λ top. Climbs catalog.now cluster waiting.old.items id waiting.new.items top.0 top.1) }
{
    let mut top = id;
    let mut kept = kept;
    'views: while let Some(last) = waiting.pop() {
        let view = catalog.item(last);
        let Some(lone) = lone_above(catalog, wanted, view, top, &kept) else {
            waiting.push(last)?;
            return Ok((top, kept));
        };
        kept = kept_over(alloc, catalog, cluster, view.id, &lone, kept)?;
        top = last;
    }
    Ok((top, kept))
}
