//! What no clause says: that calls succeed where there is memory, and a catalog worked by hand.

use mz_catalog::{Catalog, CatalogFault, MOST_ITEMS};
use mz_plan::{Item, ItemKind, Plan};
use mz_statement::Columns;
use mz_value::{Name, is_name};
use std::alloc::{AllocError, Global};
use std::process::Abort;
use std::test::Fail;

fn name(rt: &impl Abort, alloc: Global, text: &str) -> Result<Name, AllocError> {
    assert!(rt; is_name(text.as_bytes()), "{text}");
    Name::new(alloc, text.as_bytes())
}

// A table without columns.
fn table(rt: &impl Abort, alloc: Global, text: &str) -> Result<Item, AllocError> {
    let name = name(rt, alloc, text)?;
    let kind = ItemKind::Table(Columns::from_vec(Vec::new(alloc)));
    Ok(Item {
        id: 99,
        name,
        cluster: 0,
        kind,
    })
}

// An index on the table of this number.
fn index(rt: &impl Abort, alloc: Global, text: &str, on: u64) -> Result<Item, AllocError> {
    let name = name(rt, alloc, text)?;
    let kind = ItemKind::Index(on, Plan::Table(on));
    Ok(Item {
        id: 99,
        name,
        cluster: 0,
        kind,
    })
}

// The number that an addition gave, or what it says of it.
fn addition(alloc: Global, added: Result<u64, CatalogFault>) -> Result<String, AllocError> {
    match added {
        Ok(id) => format!(in alloc; "{id}"),
        Err(fault) => format!(in alloc; "{fault}"),
    }
}

// What it says of the removal of this name: nothing where it is removed.
fn removal(
    rt: &impl Abort,
    alloc: Global,
    catalog: &mut Catalog,
    text: &str,
) -> Result<String, AllocError> {
    match catalog.find(&name(rt, alloc, text)?) {
        None => String::from_str(alloc, "unknown"),
        Some(id) => match catalog.remove(id) {
            Ok(()) => Ok(String::new(alloc)),
            Err(fault) => format!(in alloc; "{fault}"),
        },
    }
}

// Adds two tables, and an index on the first one.
fn fill(rt: &impl Abort, alloc: Global, catalog: &mut Catalog) -> Result<(), CatalogFault> {
    catalog.add(table(rt, alloc, "t")?)?;
    catalog.add(table(rt, alloc, "u")?)?;
    catalog.add(index(rt, alloc, "i", 1)?)?;
    Ok(())
}

// An item goes only before what it reads.
fn take_apart(rt: &impl Abort, alloc: Global, catalog: &mut Catalog) -> Result<(), AllocError> {
    for (text, wanted) in [("t", "i depends on it"), ("i", ""), ("i", "unknown")] {
        let says = removal(rt, alloc, catalog, text)?;
        assert_eq!(rt; says.as_str(), wanted, "{text}");
    }
    Ok(())
}

// A number is used once, and a name is one item's.
fn refill(rt: &impl Abort, alloc: Global, catalog: &mut Catalog) -> Result<(), AllocError> {
    let added = catalog.add(index(rt, alloc, "i", 1)?);
    assert_eq!(rt; addition(alloc, added)?.as_str(), "4");
    let added = catalog.add(table(rt, alloc, "i")?);
    assert_eq!(rt; addition(alloc, added)?.as_str(), "the name i is taken");
    Ok(())
}

#[test]
fn a_catalog_is_taken_apart_and_filled_again(rt: HostRuntime) -> Result<(), Fail> {
    let mut catalog = Catalog::empty(rt.alloc());
    fill(&rt, rt.alloc(), &mut catalog)?;
    take_apart(&rt, rt.alloc(), &mut catalog)?;
    refill(&rt, rt.alloc(), &mut catalog)?;
    Ok(())
}

// Adds as many tables as there may be.
fn crowd(rt: &impl Abort, alloc: Global, catalog: &mut Catalog) -> Result<(), CatalogFault> {
    for place in 0..MOST_ITEMS {
        let text = format!(in alloc; "t{place}")?;
        catalog.add(table(rt, alloc, text.as_str())?)?;
    }
    Ok(())
}

// There are no more than these.
fn overcrowd(rt: &impl Abort, alloc: Global, catalog: &mut Catalog) -> Result<(), AllocError> {
    let added = catalog.add(table(rt, alloc, "t")?);
    assert_eq!(rt; addition(alloc, added)?.as_str(), "there are 1024 items");
    assert_eq!(rt; catalog.find(&name(rt, alloc, "t1023")?), Some(1024));
    Ok(())
}

#[test]
fn there_are_no_more_items_than_may_be(rt: HostRuntime) -> Result<(), Fail> {
    let mut catalog = Catalog::empty(rt.alloc());
    crowd(&rt, rt.alloc(), &mut catalog)?;
    overcrowd(&rt, rt.alloc(), &mut catalog)?;
    Ok(())
}
