//! Which items depend on which.
ghost use Rattle.std.specs.Prelude.{◌≡◌, bytes_eq, find, map};
ghost use Rattle.std.specs.List.{list_any};
ghost use Rattle.mz_plan.specs.Items.{references, names, query_of, depends, is_index};

use mz_plan::{Item, ItemKind};
use mz_statement::{Join, Select, Statement};
use mz_value::Name;

// Whether one of the joins reads the relation.
fn join_names(joins: &[Join], name: &Name) -> bool
    ensures { result ≡ list_any (λ reference. bytes_eq reference.name name.now)
        (map (λ join. join.reference) joins.now) }
{
    'joins: for join in joins {
        if join.reference.name == *name {
            return true;
        }
    }
    false
}

// Whether the select reads the relation.
fn select_names(select: &Select, name: &Name) -> bool
    ensures { result
        ≡ list_any (λ reference. bytes_eq reference.name name.now) (references select.now) }
{
    select.first.name == *name || join_names(select.joins.as_slice(), name)
}

// Whether one of the selects reads the relation.
fn query_names(selects: &[Select], name: &Name) -> bool
    ensures { result ≡ names selects.now name.now }
{
    'selects: for select in selects {
        if select_names(select, name) {
            return true;
        }
    }
    false
}

// Whether the statement's query names the relation.
fn statement_names(statement: &Statement, name: &Name) -> bool
    ensures { result ≡ names (query_of statement.now) name.now }
{
    match statement {
        Statement::Query(query, _) => query_names(query.as_slice(), name),
        Statement::CreateView(_, query) => query_names(query.as_slice(), name),
        _ => false,
    }
}

/// Whether what is of this kind depends on the table or view.
pub fn depends(kind: &ItemKind, on: &Item) -> bool
    ensures { result ≡ depends kind.now on.now }
{
    match kind {
        ItemKind::Table(_) => false,
        ItemKind::View(_, statement) => statement_names(statement, &on.name),
        ItemKind::Index(of, _) => *of == on.id,
    }
}

/// Whether what is of this kind is an index.
pub fn is_index(kind: &ItemKind) -> bool
    ensures { result ≡ is_index kind.now }
{
    matches!(kind, ItemKind::Index(_, _))
}
