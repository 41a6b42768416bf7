//! What names and items of a query stand for. The definition of resolution speaks of these.

use mz_plan::{Aggregate, Aggregates, Places, Plan};
use mz_statement::{Column, Columns};
use mz_value::Name;

/// A relation that a query may read, or that it gives.
#[derive(Drop)]
pub struct Relation {
    /// Its columns.
    pub columns: Columns,
    /// The plan that gives its rows.
    pub plan: Plan,
    /// How many tables it names, where each view is replaced by its query and no index is used.
    pub tables: u64,
}

/// A table or a view with its number.
#[derive(Drop)]
pub struct NamedRelation {
    /// The number of the item.
    pub item: u64,
    /// What it stands for.
    pub relation: Relation,
}

/// A relation under the name by which a select calls it.
#[derive(Drop)]
pub struct Referred {
    /// The name.
    pub called: Name,
    /// The relation.
    pub relation: Relation,
}

/// An item of a select.
#[derive(Drop)]
pub struct ListedItem {
    /// Its column in the result.
    pub column: Column,
    /// The place that it takes in the rows below.
    pub place: u64,
    /// Its aggregate, where it is one.
    pub aggregate: Option<Aggregate>,
}

/// What the items of a select give.
#[derive(Drop)]
pub struct Listing {
    /// The columns of the result.
    pub columns: Columns,
    /// The places that the items take in the rows below. None for `*`.
    pub places: Option<Places>,
    /// The aggregates, in order.
    pub aggregates: Aggregates,
}
