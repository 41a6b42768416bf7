//! What no clause says: that copies succeed, and values worked by hand.

use mz_plan::{
    Aggregate, CatalogItems, Command, Cond, Item, ItemKind, Operand, Places, Plan, Resolved, Scope,
    row_of_group,
};
use mz_statement::{Columns, Op};
use mz_time::Time;
use mz_value::{Datum, Name, Row, is_name};
use sqlite_items::Boxed;
use std::alloc::{AllocError, Global};
use std::test::Fail;

// #0 is not the number.
fn differs(alloc: Global, number: i32) -> Result<Cond, AllocError> {
    let literal = Operand::Literal(Datum::Int(number));
    let cond = Cond::Compare(0, Op::Eq, literal);
    Ok(Cond::Not(Boxed::new(alloc, cond)?))
}

// A row of one number.
fn row(alloc: Global, number: i32) -> Result<Row, AllocError> {
    Ok(Row::from_vec(vec![in alloc; Datum::Int(number)]?))
}

// The rows of table 7 without the first column.
fn projected(alloc: Global) -> Result<Plan, AllocError> {
    let places = Places::from_vec(vec![in alloc; 1]?);
    Ok(Plan::Project(Boxed::new(alloc, Plan::Table(7))?, places))
}

// Whether it is that plan.
fn is_projected(plan: &Plan) -> bool {
    match plan {
        Plan::Project(below, places) => {
            matches!(below.get(), Plan::Table(7)) && places.as_slice() == [1].as_slice()
        }
        _ => false,
    }
}

#[test]
fn a_condition_is_copied(rt: HostRuntime) -> Result<(), Fail> {
    let alloc = rt.alloc();
    let copy = differs(alloc, 3)?.try_copy(alloc)?;
    assert!(rt; copy.holds(&row(alloc, 2)?));
    assert!(rt; !copy.holds(&row(alloc, 3)?));
    Ok(())
}

#[test]
fn a_plan_is_copied(rt: HostRuntime) -> Result<(), Fail> {
    let alloc = rt.alloc();
    let copy = projected(alloc)?.try_copy(alloc)?;
    assert!(rt; is_projected(&copy));
    Ok(())
}

// Whether what is resolved is a query for the projected plan.
fn asks_projected(resolved: &Resolved) -> bool {
    match resolved {
        Resolved::Query(plan) => is_projected(plan),
        _ => false,
    }
}

// A copy of what a query for the projected plan is resolved to.
fn copied_query(alloc: Global) -> Result<Resolved, AllocError> {
    Resolved::Query(projected(alloc)?).try_copy(alloc)
}

#[test]
fn what_is_resolved_is_copied(rt: HostRuntime) -> Result<(), Fail> {
    let copy = copied_query(rt.alloc())?;
    assert!(rt; asks_projected(&copy));
    Ok(())
}

#[test]
fn a_line_of_a_stream_is_copied(rt: HostRuntime) -> Result<(), Fail> {
    let alloc = rt.alloc();
    let create = Command::Create {
        collection: 5,
        plan: projected(alloc)?,
        as_of: Time::zero(),
    };
    match create.try_copy(alloc)? {
        Command::Create {
            collection,
            plan,
            ..
        } => assert!(rt; collection == 5 && is_projected(&plan)),
        _ => assert!(rt; false),
    }
    Ok(())
}

#[test]
fn a_scope_is_copied(rt: HostRuntime) -> Result<(), Fail> {
    let alloc = rt.alloc();
    assert!(rt; is_name("t".as_bytes()));
    let item = Item {
        id: 7,
        name: Name::new(alloc, "t".as_bytes())?,
        cluster: 0,
        kind: ItemKind::Table(Columns::from_vec(Vec::new(alloc))),
    };
    let items = CatalogItems::from_vec(vec![in alloc; item]?);
    let copy = Scope { items, cluster: 2 }.try_copy(alloc)?;
    assert_eq!(rt; copy.cluster, 2);
    assert_eq!(rt; copy.items.as_slice().len(), 1);
    Ok(())
}

#[test]
fn a_group_has_its_key_and_its_aggregates(rt: HostRuntime) -> Result<(), Fail> {
    let alloc = rt.alloc();
    let group = [(row(alloc, 1)?, 2)];
    let made = row_of_group(alloc, &group, &row(alloc, 1)?, &[Aggregate::Count])?;
    assert!(rt; made.as_slice() == [Datum::Int(1), Datum::Wide(2)].as_slice());
    Ok(())
}
