//! Selects, and queries of one or more of them.
ghost use Rattle.std.specs.Prelude.{◌≡◌, ◌<◌, length, IfOk};

use crate::{ColumnNames, Condition, Joins, Reference, SelectItems};
use mz_value::{TryCopy, copied};
use std::alloc::{AllocError, Global};
use std::marker::Model;

/// One select.
#[derive(Debug, PartialEq, Eq, Drop)]
pub struct Select {
    /// Whether each row is given once only.
    pub distinct: bool,
    /// What it gives, from the left. None stands for `*`, all columns.
    pub items: Option<SelectItems>,
    /// The relation behind FROM.
    pub first: Reference,
    /// The relations that are joined to it.
    pub joins: Joins,
    /// The condition behind WHERE.
    pub test: Option<Condition>,
    /// The columns behind GROUP BY, none where there is no GROUP BY.
    pub group: ColumnNames,
}

// A copy of the items, where there are some.
fn copied_some_items(
    alloc: Global,
    items: &Option<SelectItems>,
) -> Result<Option<SelectItems>, AllocError>
    ensures { IfOk result (λ copy. copy ≡ items.now) }
{
    Ok(match items {
        Some(items) => Some(items.try_copy(alloc)?),
        None => None,
    })
}

// A copy of the condition, where there is one.
pub(crate) fn copied_condition(
    alloc: Global,
    condition: &Option<Condition>,
) -> Result<Option<Condition>, AllocError>
    ensures { IfOk result (λ copy. copy ≡ condition.now) }
{
    Ok(match condition {
        Some(condition) => Some(condition.try_copy(alloc)?),
        None => None,
    })
}

impl TryCopy for Select {
    fn try_copy(&self, alloc: Global) -> Result<Select, AllocError> {
        Ok(Select {
            distinct: self.distinct,
            items: copied_some_items(alloc, &self.items)?,
            first: self.first.try_copy(alloc)?,
            joins: self.joins.try_copy(alloc)?,
            test: copied_condition(alloc, &self.test)?,
            group: self.group.try_copy(alloc)?,
        })
    }
}

/// A query: its selects in order, at least one, whose rows it gives together.
#[derive(Debug, Drop)]
pub struct Query {
    selects: Vec<Select>,
}

impl Model for Query {
    ghost use Rattle.std.specs.Prelude.{List, ◌<◌, length};
    ghost use Rattle.mz_statement.specs.declared.query.Select.{Select};
    ghost use Rattle.mz_statement.specs.contracts.query.Select as the_select;
    ghost use Rattle.std.specs.Coded.{codes};

    ghost Value = { List Select };

    ghost coded = { Prim.hlevel (codes, the_select.the_row.coded) };

    ghost view = { λ q. q.selects.items };

    ghost invariant = { λ q. 0 < length q.selects.items };
}

impl Query {
    /// The query of these selects. Takes no memory.
    pub fn from_vec(selects: Vec<Select>) -> Query
        requires { 0 < length selects.items }
        ensures { result ≡ selects.items }
    {
        Query { selects }
    }

    /// The selects of the query. Takes no memory.
    pub fn into_vec(self) -> Vec<Select>
        ensures selects { result.items ≡ self }
        ensures some { 0 < length self }
    {
        self.selects
    }

    /// The selects, from the first. Takes no memory.
    pub fn as_slice(&self) -> &[Select]
        ensures selects { result.now ≡ self.now }
        ensures some { 0 < length self.now }
    {
        self.selects.as_slice()
    }

    /// A copy of the query.
    pub fn try_copy(&self, alloc: Global) -> Result<Query, AllocError>
        ensures { IfOk result (λ copy. copy ≡ self.now) }
    {
        Ok(Query {
            selects: copied(alloc, &self.selects)?,
        })
    }
}

impl PartialEq for Query {
    ghost use Rattle.std.specs.Cmp.Lexicographic.{pointwise, lists_per};
    ghost use Rattle.mz_statement.specs.contracts.query.SelectPartialEq.TheImpl.Laws.{laws-law};

    ghost eq = { pointwise ⟦<Select as PartialEq>⟧.eq };

    ghost laws = { lists_per laws-law };

    fn eq(&self, other: &Query) -> bool {
        self.selects == other.selects
    }
}

impl Eq for Query {
    ghost use Rattle.std.specs.Cmp.Lexicographic.{lists_equiv};
    ghost use Rattle.mz_statement.specs.contracts.query.SelectEq.TheImpl.Laws.{laws-law};

    ghost laws = { lists_equiv laws-law };
}
