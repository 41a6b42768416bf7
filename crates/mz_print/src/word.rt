//! Words that the grammar names without reserving them, and what is left open behind a piece.

/// A word that has a meaning where the grammar names it, and may be a name anywhere else.
#[derive(Clone, Copy, Debug, PartialEq, Eq)]
pub enum Unreserved {
    /// `INT`
    Int,
    /// `TEXT`
    Text,
    /// `BOOL`
    Bool,
    /// `WIDE`, which no statement has
    Wide,
    /// `LAG`
    Lag,
    /// `STAY`
    Stay,
    /// `FRONTIERS`
    Frontiers,
    /// `SET`
    Set,
    /// `ISOLATION`
    Isolation,
    /// `STRICT`
    Strict,
    /// `SESSION`
    Session,
    /// `CLUSTER`
    Cluster,
    /// `COUNT`
    Count,
    /// `SUM`
    Sum,
    /// `MIN`
    Min,
    /// `MAX`
    Max,
}

/// How the next piece may join the text.
#[derive(Clone, Copy, Debug, PartialEq, Eq)]
pub enum Edge {
    /// Nothing is before it, or what is before it takes no space behind.
    Tight,
    /// A call's word is before it, behind which a parenthesis takes no space.
    Call,
    /// Anything else is before it.
    Loose,
}
