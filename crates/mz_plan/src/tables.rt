//! The tables that a query is asked over.

use crate::MadePlans;
use mz_bag::Bag;

/// The rows of each table, and the plan of each index that was ever made.
#[derive(Drop)]
pub struct TableBags {
    /// Each table's number with its rows.
    pub bags: Vec<(u64, Bag)>,
    /// The plan of each index, the newest first.
    pub plans: MadePlans,
}
