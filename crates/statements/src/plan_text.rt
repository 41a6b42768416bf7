//! Plans and conditions as they are printed.

use mz_plan::{Aggregate, Cond, Operand, Plan};
use mz_statement::Op;
use mz_value::Datum;
use std::alloc::{AllocError, Global};

// The sign of a comparison.
fn sign(op: Op) -> &'static str {
    match op {
        Op::Eq => "=",
        Op::Ne => "<>",
        Op::Lt => "<",
        Op::Le => "<=",
        Op::Gt => ">",
        Op::Ge => ">=",
    }
}

// A value; a text stands in quotes, as it is.
fn value_text(alloc: Global, value: &Datum) -> Result<String, AllocError> {
    match value {
        Datum::Int(number) => format!(in alloc; "{number}"),
        Datum::Text(text) => {
            let text = text.as_str();
            format!(in alloc; "'{text}'")
        }
        Datum::Bool(truth) => format!(in alloc; "{truth}"),
        Datum::Wide(number) => format!(in alloc; "{number}"),
    }
}

// What a column is compared with.
fn operand_text(alloc: Global, operand: &Operand) -> Result<String, AllocError> {
    match operand {
        Operand::Place(place) => format!(in alloc; "#{place}"),
        Operand::Literal(value) => value_text(alloc, value),
    }
}

// Writes places, each behind a space.
fn push_places(alloc: Global, text: &mut String, places: &[u64]) -> Result<(), AllocError> {
    'places: for place in places {
        text.push_str(&format!(in alloc; " #{place}")?)?;
    }
    Ok(())
}

// Writes pairs of places, each behind a space.
fn push_pairs(alloc: Global, text: &mut String, pairs: &[(u64, u64)]) -> Result<(), AllocError> {
    'pairs: for (left, right) in pairs {
        text.push_str(&format!(in alloc; " #{left}=#{right}")?)?;
    }
    Ok(())
}

// An aggregate, behind a space.
fn aggregate_text(alloc: Global, aggregate: &Aggregate) -> Result<String, AllocError> {
    match aggregate {
        Aggregate::Count => format!(in alloc; " count"),
        Aggregate::Sum(place) => format!(in alloc; " sum#{place}"),
        Aggregate::Min(place) => format!(in alloc; " min#{place}"),
        Aggregate::Max(place) => format!(in alloc; " max#{place}"),
    }
}

// Writes aggregates.
fn push_aggregates(
    alloc: Global,
    text: &mut String,
    aggregates: &[Aggregate],
) -> Result<(), AllocError> {
    'aggregates: for aggregate in aggregates {
        text.push_str(&aggregate_text(alloc, aggregate)?)?;
    }
    Ok(())
}

// Writes conditions with a word between each two, nested from the left: an opening parenthesis for each
// condition behind the first, and a closing one behind it.
#[cycle(condition)]
fn push_joined(
    alloc: Global,
    text: &mut String,
    word: &str,
    conds: &[Cond],
) -> Result<(), AllocError> {
    'openings: for _ in 1..conds.len() {
        text.push_str("(")?;
    }
    'conds: for (place, cond) in conds.iter().enumerate() {
        if place == 0 {
            push_condition(alloc, text, cond)?;
        } else {
            text.push_str(word)?;
            push_condition(alloc, text, cond)?;
            text.push_str(")")?;
        }
    }
    Ok(())
}

/// Writes a condition: columns by their places, parentheses round each two that are joined by AND or OR. A list is
/// written by a loop, so calls nest as deep as lists and NOTs do.
#[cycle(condition)]
pub fn push_condition(alloc: Global, text: &mut String, cond: &Cond) -> Result<(), AllocError> {
    match cond {
        Cond::All(conds) => push_joined(alloc, text, " and ", conds.as_slice()),
        Cond::Any(conds) => push_joined(alloc, text, " or ", conds.as_slice()),
        Cond::Not(below) => {
            text.push_str("not ")?;
            push_condition(alloc, text, below.get())
        }
        Cond::Compare(place, op, operand) => {
            let sign = sign(*op);
            let operand = operand_text(alloc, operand)?;
            text.push_str(&format!(in alloc; "#{place} {sign} {operand}")?)
        }
    }
}

/// Writes a plan: each operator by its name, with what it takes in parentheses.
pub fn push_plan(alloc: Global, text: &mut String, plan: &Plan) -> Result<(), AllocError> {
    match plan {
        Plan::Table(item) => text.push_str(&format!(in alloc; "table {item}")?),
        Plan::Index(item) => text.push_str(&format!(in alloc; "index {item}")?),
        Plan::Filter(below, cond) => {
            text.push_str("filter(")?;
            push_plan(alloc, text, below.get())?;
            text.push_str(", ")?;
            push_condition(alloc, text, cond)?;
            text.push_str(")")
        }
        Plan::Project(below, places) => {
            text.push_str("project(")?;
            push_plan(alloc, text, below.get())?;
            text.push_str(",")?;
            push_places(alloc, text, places.as_slice())?;
            text.push_str(")")
        }
        Plan::Join(left, right, pairs) => {
            text.push_str("join(")?;
            push_plan(alloc, text, left.get())?;
            text.push_str(", ")?;
            push_plan(alloc, text, right.get())?;
            text.push_str(",")?;
            push_pairs(alloc, text, pairs.as_slice())?;
            text.push_str(")")
        }
        Plan::Union(left, right) => {
            text.push_str("union(")?;
            push_plan(alloc, text, left.get())?;
            text.push_str(", ")?;
            push_plan(alloc, text, right.get())?;
            text.push_str(")")
        }
        Plan::Group(below, places, aggregates) => {
            text.push_str("group(")?;
            push_plan(alloc, text, below.get())?;
            text.push_str(",")?;
            push_places(alloc, text, places.as_slice())?;
            text.push_str(",")?;
            push_aggregates(alloc, text, aggregates.as_slice())?;
            text.push_str(")")
        }
        Plan::Distinct(below) => {
            text.push_str("distinct(")?;
            push_plan(alloc, text, below.get())?;
            text.push_str(")")
        }
    }
}
