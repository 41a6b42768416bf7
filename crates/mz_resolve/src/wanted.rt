//! Items that a statement names itself.
use crate::lookups::item_below;
use indexmap::IndexSet;
use mz_catalog::Catalog;
use mz_statement::Select;
use mz_value::Name;
use std::alloc::{AllocError, Global};

/// The numbers of the items that a statement names itself, so that what they stand for is kept. No clause speaks of
/// them, since they decide no result.
pub type Wanted = IndexSet<u64>;

// The item that a name finds among those whose numbers are below this one is wanted.
fn want(wanted: &mut Wanted, catalog: &Catalog, below: u64, name: &Name) -> Result<(), AllocError> {
    if let Some(item) = item_below(catalog, below, name) {
        wanted.insert(item.id)?;
    }
    Ok(())
}

// The items that a select names are wanted.
fn want_all(
    wanted: &mut Wanted,
    catalog: &Catalog,
    below: u64,
    select: &Select,
) -> Result<(), AllocError> {
    want(wanted, catalog, below, &select.first.name)?;
    'joins: for join in select.joins.as_slice() {
        want(wanted, catalog, below, &join.reference.name)?;
    }
    Ok(())
}

/// The items that selects name among those whose numbers are below this one. O(n) expected, where there are n
/// references.
pub fn wanted_by(
    alloc: Global,
    catalog: &Catalog,
    below: u64,
    selects: &[Select],
) -> Result<Wanted, AllocError> {
    let mut wanted = IndexSet::new(alloc);
    'selects: for select in selects {
        want_all(&mut wanted, catalog, below, select)?;
    }
    Ok(wanted)
}
