//! Names and queries resolved: each item that they reach, through views, once, the oldest first.
ghost use Rattle.std.specs.Prelude.{◌≡◌, ◌∷◌, ◌++◌, [], true, None, Some, map, OnOk, OnErr};
ghost use Rattle.mz_catalog.specs.CatalogState.{IsCatalog};
ghost use Rattle.mz_plan.specs.Items.{numbered, references};
ghost use Rattle.mz_resolution.specs.Queries.{queried};
ghost use Rattle.mz_resolution.specs.Resolution.{named};
ghost use Rattle.mz_select.specs.Gives.{Is};
ghost use Rattle.mz_resolve.specs.InCatalog.{items_below, names_below, scope_in};
ghost use Rattle.mz_resolve.specs.Known.{IsTrueOf, Keeps, is_known};
ghost use Rattle.mz_resolve.specs.Unknown.{selects_of, unknown_in, unknown_named, unknown_of};
ghost use Rattle.mz_resolve.specs.Waiting.{IsPath, IsWaiting, Learns, Steps};

use crate::known::{Known, keep, kept_of, unknown_in, unknown_named};
use crate::lone::climb;
use crate::lookups::selects_of;
use crate::relations::{item_relation, named_by, queried_by};
use crate::wanted::{Wanted, wanted_by};
use indexmap::{IndexMap, IndexSet};
use mz_catalog::Catalog;
use mz_plan::Item;
use mz_refusal::CallFault;
use mz_resolution::{NamedRelation, Relation};
use mz_statement::{Join, Select};
use mz_value::Name;
use std::alloc::{AllocError, Global};

// An item waits, and behind it an older one.
fn wait_for(waiting: &mut Vec<u64>, id: u64, older: u64) -> Result<(), AllocError>
    ensures { OnOk result (waiting.new.items ≡ waiting.old.items ++ id ∷ older ∷ []) }
{
    waiting.push(id)?;
    waiting.push(older)?;
    Ok(())
}

// Resolves the item that waits last, all that its query names being known, and the views in front of it that read
// nothing else. The topmost is kept.
fn learn(
    alloc: Global,
    catalog: &Catalog,
    cluster: u64,
    known: &mut Known,
    wanted: &Wanted,
    waiting: &mut Vec<u64>,
    item: &Item,
) -> Result<(), AllocError>
    requires holds { IsTrueOf catalog.now cluster known.old.entries }
    requires there { numbered item.now.id catalog.now.items ≡ Some item.now }
    requires path { IsPath known.old.entries catalog.now.items
        (waiting.old.items ++ item.now.id ∷ []) }
    requires reached { unknown_in known.old.entries catalog.now item.now.id
        (selects_of item.now.kind) ≡ None }
    ensures ok { OnOk result (Learns catalog.now cluster known.old.entries waiting.old.items
        item.now.id known.new.entries waiting.new.items) }
    ensures err { OnErr result (known.new.entries ≡ known.old.entries) }
{
    let kept = kept_of(item_relation(alloc, catalog, cluster, known, item))?;
    let (top, kept) = climb(alloc, catalog, cluster, wanted, waiting, item.id, kept)?;
    keep(known, top, kept)
}

// The item of this number, which waits last, is resolved where all that its query names are known. Else it waits on,
// and behind it the first that isn't.
fn step(
    alloc: Global,
    catalog: &Catalog,
    cluster: u64,
    known: &mut Known,
    wanted: &Wanted,
    waiting: &mut Vec<u64>,
    id: u64,
) -> Result<(), AllocError>
    requires holds { IsTrueOf catalog.now cluster known.old.entries }
    requires path { IsPath known.old.entries catalog.now.items (waiting.old.items ++ id ∷ []) }
    ensures ok { OnOk result (Steps catalog.now cluster known.old.entries waiting.old.items id
        known.new.entries waiting.new.items) }
    ensures err { OnErr result (known.new.entries ≡ known.old.entries) }
    ensures catalog { IsCatalog catalog.now }
{
    let item = catalog.item(id);
    match unknown_in(known, catalog, item.id, selects_of(&item.kind)) {
        Some(older) => wait_for(waiting, id, older),
        None => learn(alloc, catalog, cluster, known, wanted, waiting, item),
    }
}

// Resolves an item that isn't known, and before it those that its query reaches and that aren't known either.
fn reach(
    alloc: Global,
    catalog: &Catalog,
    cluster: u64,
    known: &mut Known,
    wanted: &Wanted,
    item: u64,
) -> Result<(), AllocError>
    requires holds { IsTrueOf catalog.now cluster known.old.entries }
    requires waits { IsWaiting known.old.entries catalog.now.items item }
    ensures holds { IsTrueOf catalog.now cluster known.new.entries }
    ensures keeps { Keeps known.old.entries known.new.entries }
    ensures reached { OnOk result (is_known known.new.entries item ≡ true) }
{
    let mut waiting = Vec::new(alloc);
    waiting.push(item)?;
    'items: while let Some(last) = waiting.pop() {
        step(alloc, catalog, cluster, known, wanted, &mut waiting, last)?;
    }
    Ok(())
}

// Resolves what a name reaches among the items whose numbers are below this one.
fn reach_named(
    alloc: Global,
    catalog: &Catalog,
    cluster: u64,
    known: &mut Known,
    wanted: &Wanted,
    below: u64,
    name: &Name,
) -> Result<(), AllocError>
    requires holds { IsTrueOf catalog.now cluster known.old.entries }
    ensures holds { IsTrueOf catalog.now cluster known.new.entries }
    ensures keeps { Keeps known.old.entries known.new.entries }
    ensures reached { OnOk result
        (unknown_named known.new.entries catalog.now below name.now ≡ None) }
{
    match unknown_named(known, catalog, below, name) {
        Some(item) => reach(alloc, catalog, cluster, known, wanted, item),
        None => Ok(()),
    }
}

// Resolves what JOINs reach.
fn reach_joined(
    alloc: Global,
    catalog: &Catalog,
    cluster: u64,
    known: &mut Known,
    wanted: &Wanted,
    below: u64,
    joins: &[Join],
) -> Result<(), AllocError>
    requires holds { IsTrueOf catalog.now cluster known.old.entries }
    ensures holds { IsTrueOf catalog.now cluster known.new.entries }
    ensures keeps { Keeps known.old.entries known.new.entries }
    ensures reached { OnOk result (unknown_of known.new.entries catalog.now below
        (map (λ join. join.reference) joins.now) ≡ None) }
{
    'joins: for join in joins {
        reach_named(
            alloc,
            catalog,
            cluster,
            known,
            wanted,
            below,
            &join.reference.name,
        )?;
    }
    Ok(())
}

// Resolves what a select reaches.
fn reach_selected(
    alloc: Global,
    catalog: &Catalog,
    cluster: u64,
    known: &mut Known,
    wanted: &Wanted,
    below: u64,
    select: &Select,
) -> Result<(), AllocError>
    requires holds { IsTrueOf catalog.now cluster known.old.entries }
    ensures holds { IsTrueOf catalog.now cluster known.new.entries }
    ensures keeps { Keeps known.old.entries known.new.entries }
    ensures reached { OnOk result (unknown_of known.new.entries catalog.now below
        (references select.now) ≡ None) }
{
    reach_named(
        alloc,
        catalog,
        cluster,
        known,
        wanted,
        below,
        &select.first.name,
    )?;
    reach_joined(
        alloc,
        catalog,
        cluster,
        known,
        wanted,
        below,
        select.joins.as_slice(),
    )
}

// Resolves what selects reach.
fn reach_all(
    alloc: Global,
    catalog: &Catalog,
    cluster: u64,
    known: &mut Known,
    wanted: &Wanted,
    below: u64,
    selects: &[Select],
) -> Result<(), AllocError>
    requires holds { IsTrueOf catalog.now cluster known.old.entries }
    ensures holds { IsTrueOf catalog.now cluster known.new.entries }
    ensures keeps { Keeps known.old.entries known.new.entries }
    ensures reached { OnOk result
        (unknown_in known.new.entries catalog.now below selects.now ≡ None) }
{
    'selects: for select in selects {
        reach_selected(alloc, catalog, cluster, known, wanted, below, select)?;
    }
    Ok(())
}

// What a name stands for, its item resolved first.
fn named_after(
    alloc: Global,
    catalog: &Catalog,
    cluster: u64,
    known: &mut Known,
    wanted: &Wanted,
    below: u64,
    name: &Name,
) -> Result<NamedRelation, CallFault>
    requires { IsTrueOf catalog.now cluster known.old.entries }
    ensures { Is result
        (named (scope_in catalog.now cluster) (items_below below catalog.now.items) name.now) }
{
    reach_named(alloc, catalog, cluster, known, wanted, below, name)?;
    named_by(alloc, catalog, cluster, known, below, name)
}

/// What a name stands for among the items whose numbers are below this one. Time and memory follow the queries of
/// the views that it reaches, each once, and their plans.
pub fn named(
    alloc: Global,
    catalog: &Catalog,
    cluster: u64,
    below: u64,
    name: &Name,
) -> Result<NamedRelation, CallFault>
    ensures { Is result
        (named (scope_in catalog.now cluster) (items_below below catalog.now.items) name.now) }
{
    let wanted = IndexSet::new(alloc);
    let mut known = IndexMap::new(alloc);
    named_after(alloc, catalog, cluster, &mut known, &wanted, below, name)
}

// The relation of a query, the items that it names resolved first.
fn queried_after(
    alloc: Global,
    catalog: &Catalog,
    cluster: u64,
    known: &mut Known,
    wanted: &Wanted,
    below: u64,
    selects: &[Select],
) -> Result<Relation, CallFault>
    requires { IsTrueOf catalog.now cluster known.old.entries }
    ensures { Is result (queried (names_below catalog.now cluster below) selects.now) }
{
    reach_all(alloc, catalog, cluster, known, wanted, below, selects)?;
    queried_by(alloc, catalog, cluster, known, below, selects)
}

/// The relation of a query over the items whose numbers are below this one. Time and memory follow the query, those
/// of the views that it reaches, each once, and a copy of a plan for each reference.
pub fn queried(
    alloc: Global,
    catalog: &Catalog,
    cluster: u64,
    below: u64,
    selects: &[Select],
) -> Result<Relation, CallFault>
    ensures { Is result (queried (names_below catalog.now cluster below) selects.now) }
{
    let wanted = wanted_by(alloc, catalog, below, selects)?;
    let mut known = IndexMap::new(alloc);
    queried_after(alloc, catalog, cluster, &mut known, &wanted, below, selects)
}
