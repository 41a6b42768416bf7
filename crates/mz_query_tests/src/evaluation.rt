//! What no clause says: that calls succeed, and conditions, queries and types worked by hand.
ghost use Rattle.std.specs.Prelude.{List, IfOk, FitsSigned};
ghost use Rattle.std.specs.Int.{w32};
ghost use Rattle.mz_value.specs.declared.datum.Datum.{Datum};
ghost use Rattle.mz_bag.specs.Bag.{count_in};

use mz_bag::Bag;
use mz_eval::{eval, is_bounded, typed};
use mz_plan::{
    Aggregate, Aggregates, CatalogItems, Cond, Item, ItemKind, MadePlans, Operand, Pairs, Places,
    Plan, Scope, TableBags, are_newest_first,
};
use mz_statement::{Column, ColumnType, Columns, Op};
use mz_value::{Datum, Name, Row, Text, is_name};
use sqlite_items::{Boxed, Items};
use std::alloc::{AllocError, Global};
use std::process::Abort;
use std::test::Fail;

fn text(alloc: Global, text: &str) -> Result<Datum, AllocError> {
    Ok(Datum::Text(Text::from_string(String::from_str(alloc, text)?)))
}

// A row of an INT and a TEXT.
fn row(alloc: Global, number: i32, word: &str) -> Result<Row, AllocError> {
    Ok(Row::from_vec(vec![in alloc; Datum::Int(number), text(alloc, word)?]?))
}

fn number_is(op: Op, number: i32) -> Cond {
    Cond::Compare(0, op, Operand::Literal(Datum::Int(number)))
}

// Whether a condition holds of the row (2, 'b').
fn holds(alloc: Global, cond: Cond) -> Result<bool, AllocError> {
    Ok(cond.holds(&row(alloc, 2, "b")?))
}

// `#0 < 3` and `#1 = 'a'`, of which the first holds.
fn first_of_two(alloc: Global) -> Result<Items<Cond>, AllocError> {
    let literal = Operand::Literal(text(alloc, "a")?);
    let mut conds = Items::new(alloc);
    conds.push(number_is(Op::Lt, 3))?;
    conds.push(Cond::Compare(1, Op::Eq, literal))?;
    Ok(conds)
}

#[test]
fn comparisons_are_as_by_hand(rt: HostRuntime) -> Result<(), Fail> {
    assert!(rt; holds(rt.alloc(), number_is(Op::Eq, 2))?);
    assert!(rt; !holds(rt.alloc(), number_is(Op::Ne, 2))?);
    assert!(rt; !holds(rt.alloc(), number_is(Op::Gt, 2))?);
    Ok(())
}

#[test]
fn conditions_are_as_by_hand(rt: HostRuntime) -> Result<(), Fail> {
    let alloc = rt.alloc();
    assert!(rt; !holds(alloc, Cond::All(first_of_two(alloc)?))?);
    assert!(rt; holds(alloc, Cond::Any(first_of_two(alloc)?))?);
    assert!(rt; holds(alloc, Cond::All(Items::new(alloc)))?);
    assert!(rt; !holds(alloc, Cond::Any(Items::new(alloc)))?);
    Ok(())
}

// Adds to a bag whose counts are small.
fn add(rt: &impl Abort, bag: &mut Bag, row: Row, diff: i8) -> Result<(), AllocError> {
    let count = bag.get(&row);
    assert!(rt; count >= -1_000);
    assert!(rt; count <= 1_000);
    bag.add(row, i128::from(diff))
}

// A bag of rows of an INT and a TEXT, with their counts.
fn bag(rt: &impl Abort, alloc: Global, counts: &[(i32, &str, i8)]) -> Result<Bag, AllocError> {
    let mut bag = Bag::empty(alloc);
    for &(number, word, count) in counts {
        add(rt, &mut bag, row(alloc, number, word)?, count)?;
    }
    Ok(bag)
}

// The tables by their numbers: 1 and 2 have rows, 3 takes one away, and 4 has one 127 times.
fn bags(rt: &impl Abort, alloc: Global) -> Result<Vec<(u64, Bag)>, AllocError> {
    let mut bags = Vec::new(alloc);
    let first = [(1, "a", 1), (1, "b", 2), (2, "c", 3)];
    bags.push((1, bag(rt, alloc, &first)?))?;
    let second = [(i32::MIN, "n", 3), (2, "c", 1), (i32::MAX, "m", 2)];
    bags.push((2, bag(rt, alloc, &second)?))?;
    bags.push((3, bag(rt, alloc, &[(1, "a", -1)])?))?;
    bags.push((4, bag(rt, alloc, &[(0, "h", 127)])?))?;
    Ok(bags)
}

// The indexes, the newest first: 12 groups the rows of 11, which filters table 1. 10 is older than 11.
fn plans(alloc: Global) -> Result<Vec<(u64, Plan)>, AllocError> {
    let mut plans = Vec::new(alloc);
    plans.push((
        12,
        group(alloc, Plan::Index(11), &[0], &[Aggregate::Count])?,
    ))?;
    plans.push((11, filter(alloc, Plan::Table(1), 1)?))?;
    plans.push((10, Plan::Index(11)))?;
    Ok(plans)
}

// The tables and indexes of the queries.
fn tables(rt: &impl Abort, alloc: Global) -> Result<TableBags, AllocError> {
    let plans = plans(alloc)?;
    assert!(rt; are_newest_first(&plans));
    Ok(TableBags {
        bags: bags(rt, alloc)?,
        plans: MadePlans::from_vec(plans),
    })
}

// The rows whose first value is the number.
fn filter(alloc: Global, below: Plan, number: i32) -> Result<Plan, AllocError> {
    Ok(Plan::Filter(Boxed::new(alloc, below)?, number_is(Op::Eq, number)))
}

fn project(alloc: Global, below: Plan, places: &[u64]) -> Result<Plan, AllocError> {
    let places = Places::from_vec(Vec::from_slice(alloc, places)?);
    Ok(Plan::Project(Boxed::new(alloc, below)?, places))
}

// A join of two tables on their first columns.
fn join(alloc: Global, left: u64, right: u64) -> Result<Plan, AllocError> {
    let pairs = Pairs::from_vec(vec![in alloc; (0, 0)]?);
    let left = Boxed::new(alloc, Plan::Table(left))?;
    Ok(Plan::Join(left, Boxed::new(alloc, Plan::Table(right))?, pairs))
}

// A union of two tables.
fn union(alloc: Global, left: u64, right: u64) -> Result<Plan, AllocError> {
    let left = Boxed::new(alloc, Plan::Table(left))?;
    Ok(Plan::Union(left, Boxed::new(alloc, Plan::Table(right))?))
}

fn group(
    alloc: Global,
    below: Plan,
    places: &[u64],
    aggregates: &[Aggregate],
) -> Result<Plan, AllocError> {
    let places = Places::from_vec(Vec::from_slice(alloc, places)?);
    let aggregates = Aggregates::from_vec(Vec::from_slice(alloc, aggregates)?);
    Ok(Plan::Group(Boxed::new(alloc, below)?, places, aggregates))
}

// Writes a value behind a text. A WIDE has a W.
fn push_value(text: &mut String, value: &Datum) -> Result<(), AllocError> {
    match value {
        Datum::Int(number) => write!(text, " {number}"),
        Datum::Text(word) => write!(text, " {}", word.as_str()),
        Datum::Bool(truth) => write!(text, " {truth}"),
        Datum::Wide(number) => write!(text, " {number}W"),
    }
}

// Rows as a text: of each its count and its values.
fn written(alloc: Global, rows: &[(Row, i128)]) -> Result<String, AllocError> {
    let mut text = String::new(alloc);
    for (row, count) in rows {
        write!(text, "{count} of")?;
        for value in row.as_slice() {
            push_value(&mut text, value)?;
        }
        text.push_str("; ")?;
    }
    Ok(text)
}

// What a plan gives, as a text.
fn answer(alloc: Global, plan: &Plan, tables: &TableBags) -> Result<String, AllocError> {
    if is_bounded(alloc, plan, tables)? {
        let rows = eval(alloc, plan, tables)?.counted()?;
        written(alloc, rows.as_slice())
    } else {
        String::from_str(alloc, "not bounded")
    }
}

// That a plan gives these rows.
fn gives(rt: &impl Abort, alloc: Global, plan: Plan, rows: &str) -> Result<(), AllocError> {
    let tables = tables(rt, alloc)?;
    let answer = answer(alloc, &plan, &tables)?;
    assert_eq!(rt; answer.as_str(), rows);
    Ok(())
}

#[test]
fn rows_keep_and_add_their_counts(rt: HostRuntime) -> Result<(), Fail> {
    let alloc = rt.alloc();
    let kept = filter(alloc, Plan::Table(1), 1)?;
    gives(&rt, alloc, kept, "1 of 1 a; 2 of 1 b; ")?;
    let taken = project(alloc, Plan::Table(1), &[0, 0])?;
    gives(&rt, alloc, taken, "3 of 1 1; 3 of 2 2; ")?;
    gives(&rt, alloc, union(alloc, 1, 3)?, "2 of 1 b; 3 of 2 c; ")?;
    Ok(())
}

#[test]
fn a_join_multiplies_counts(rt: HostRuntime) -> Result<(), Fail> {
    gives(
        &rt,
        rt.alloc(),
        join(rt.alloc(), 1, 1)?,
        "1 of 1 a 1 a; 2 of 1 a 1 b; 2 of 1 b 1 a; 4 of 1 b 1 b; 9 of 2 c 2 c; ",
    )?;
    Ok(())
}

#[test]
fn distinct_rows_are_there_once(rt: HostRuntime) -> Result<(), Fail> {
    let below = Boxed::new(rt.alloc(), union(rt.alloc(), 1, 3)?)?;
    gives(
        &rt,
        rt.alloc(),
        Plan::Distinct(below),
        "1 of 1 b; 1 of 2 c; ",
    )?;
    Ok(())
}

#[test]
fn groups_have_counts_extremes_and_sums(rt: HostRuntime) -> Result<(), Fail> {
    let alloc = rt.alloc();
    let aggregates = [Aggregate::Count, Aggregate::Min(1), Aggregate::Max(1)];
    let extremes = group(alloc, Plan::Table(1), &[0], &aggregates)?;
    gives(&rt, alloc, extremes, "1 of 1 3W a b; 1 of 2 3W c c; ")?;
    let sums = group(alloc, Plan::Table(2), &[1], &[Aggregate::Sum(0)])?;
    let wide = "1 of c 2W; 1 of m 4294967294W; 1 of n -6442450944W; ";
    gives(&rt, alloc, sums, wide)?;
    Ok(())
}

#[test]
fn an_index_sees_older_ones_alone(rt: HostRuntime) -> Result<(), Fail> {
    gives(&rt, rt.alloc(), Plan::Index(12), "1 of 1 3W; ")?;
    gives(&rt, rt.alloc(), Plan::Index(10), "")?;
    Ok(())
}

// A plan joined with itself on the first columns.
fn with_itself(alloc: Global, plan: &Plan) -> Result<Plan, AllocError> {
    let pairs = Pairs::from_vec(vec![in alloc; (0, 0)]?);
    let left = Boxed::new(alloc, plan.try_copy(alloc)?)?;
    let right = Boxed::new(alloc, plan.try_copy(alloc)?)?;
    Ok(Plan::Join(left, right, pairs))
}

// Table 4 joined with itself, that joined with itself, and so on: 127^16 rows, where 2^100 may be.
fn great(alloc: Global) -> Result<Plan, AllocError> {
    let mut plan = Plan::Table(4);
    for _ in 0..4 {
        plan = with_itself(alloc, &plan)?;
    }
    Ok(plan)
}

#[test]
fn plans_past_the_bound_are_told(rt: HostRuntime) -> Result<(), Fail> {
    gives(&rt, rt.alloc(), great(rt.alloc())?, "not bounded")?;
    gives(&rt, rt.alloc(), join(rt.alloc(), 4, 1)?, "")?;
    Ok(())
}

fn name(rt: &impl Abort, alloc: Global, text: &str) -> Result<Name, AllocError> {
    assert!(rt; is_name(text.as_bytes()), "{text}");
    Name::new(alloc, text.as_bytes())
}

// The scope with table 1, of one column `word`, a TEXT.
fn scope(rt: &impl Abort, alloc: Global) -> Result<Scope, AllocError> {
    let column = Column {
        name: name(rt, alloc, "word")?,
        kind: ColumnType::Text,
    };
    let item = Item {
        id: 1,
        name: name(rt, alloc, "t")?,
        cluster: 0,
        kind: ItemKind::Table(Columns::from_vec(vec![in alloc; column]?)),
    };
    let items = CatalogItems::from_vec(vec![in alloc; item]?);
    Ok(Scope { items, cluster: 0 })
}

#[test]
fn columns_have_names_and_types(rt: HostRuntime) -> Result<(), Fail> {
    let plan = group(rt.alloc(), Plan::Table(1), &[0], &[Aggregate::Count])?;
    let columns = typed(rt.alloc(), &plan, &scope(&rt, rt.alloc())?)?;
    let mut text = String::new(rt.alloc());
    for column in columns.as_slice() {
        write!(text, "{} {:?}, ", column.name, column.kind)?;
    }
    assert_eq!(rt; text.as_str(), "word Text, count Wide, ");
    Ok(())
}
