//! What a query and a table may have at most.

/// How many tables a query may read, where its views are replaced by their queries.
pub const MOST_TABLES: u64 = 4;

/// How many rows a table may have, each as often as it is there.
pub const MOST_ROWS: u64 = 65_536;
