//! Selects and queries, as they are printed.
ghost use Rattle.std.specs.Prelude.{◌≡◌, List, OnOk};
ghost use Rattle.mz_print.specs.Piece.{Piece};
ghost use Rattle.mz_statement.specs.declared.item.Expression.TheVariants.{Count};
ghost use Rattle.mz_print.specs.Print.{print_call, print_expression, print_item, print_items, print_join, print_distinct, print_source, print_select, print_other_select, print_query};
ghost use Rattle.mz_print.specs.Writer.{written};

use crate::condition::print_where;
use crate::list::{Print, print_listed, print_more};
use crate::name::{print_alias, print_group, print_reference};
use crate::word::Unreserved;
use crate::writer::Writer;
use mz_grammar::Key;
use mz_statement::{ColumnName, Expression, Join, Select, SelectItem, SelectItems};
use std::alloc::AllocError;

// Adds an aggregate of a column.
fn print_call(out: &mut Writer, word: Unreserved, column: &ColumnName) -> Result<(), AllocError>
    ensures { OnOk result ((rest : List Piece)
        → written out.new rest ≡ written out.old (print_call word column.now rest)) }
{
    out.word(word)?;
    out.key(Key::Open)?;
    column.print(out)?;
    out.key(Key::Close)
}

// Adds the count of all rows.
fn print_count(out: &mut Writer) -> Result<(), AllocError>
    ensures { OnOk result ((rest : List Piece)
        → written out.new rest ≡ written out.old (print_expression Count rest)) }
{
    out.word(Unreserved::Count)?;
    out.key(Key::Open)?;
    out.key(Key::Star)?;
    out.key(Key::Close)
}

// Adds a column or an aggregate.
fn print_expression(out: &mut Writer, expression: &Expression) -> Result<(), AllocError>
    ensures { OnOk result ((rest : List Piece)
        → written out.new rest ≡ written out.old (print_expression expression.now rest)) }
{
    match expression {
        Expression::Column(column) => column.print(out),
        Expression::Count => print_count(out),
        Expression::Sum(column) => print_call(out, Unreserved::Sum, column),
        Expression::Min(column) => print_call(out, Unreserved::Min, column),
        Expression::Max(column) => print_call(out, Unreserved::Max, column),
    }
}

// A column or an aggregate, with its alias.
impl Print for SelectItem {
    ghost pieces = { print_item };

    fn print(&self, out: &mut Writer) -> Result<(), AllocError> {
        print_expression(out, &self.expression)?;
        print_alias(out, &self.alias)
    }
}

// Adds a star, or items.
fn print_items(out: &mut Writer, items: &Option<SelectItems>) -> Result<(), AllocError>
    ensures { OnOk result ((rest : List Piece)
        → written out.new rest ≡ written out.old (print_items items.now rest)) }
{
    match items {
        None => out.key(Key::Star),
        Some(items) => print_listed(out, Key::Comma, items.as_slice()),
    }
}

// A relation that is joined, and its pairs of columns.
impl Print for Join {
    ghost pieces = { print_join };

    fn print(&self, out: &mut Writer) -> Result<(), AllocError> {
        print_reference(out, &self.reference)?;
        out.key(Key::On)?;
        print_listed(out, Key::And, self.pairs.as_slice())
    }
}

// Adds DISTINCT, or nothing.
fn print_distinct(out: &mut Writer, distinct: bool) -> Result<(), AllocError>
    ensures { OnOk result ((rest : List Piece)
        → written out.new rest ≡ written out.old (print_distinct distinct rest)) }
{
    if distinct {
        out.key(Key::Distinct)
    } else {
        Ok(())
    }
}

// Adds what stands behind the items.
fn print_source(out: &mut Writer, select: &Select) -> Result<(), AllocError>
    ensures { OnOk result ((rest : List Piece)
        → written out.new rest ≡ written out.old (print_source select.now rest)) }
{
    out.key(Key::From)?;
    print_reference(out, &select.first)?;
    print_more(out, Key::Join, select.joins.as_slice())?;
    print_where(out, &select.test)?;
    print_group(out, select.group.as_slice())
}

// Adds a select.
fn print_select(out: &mut Writer, select: &Select) -> Result<(), AllocError>
    ensures { OnOk result ((rest : List Piece)
        → written out.new rest ≡ written out.old (print_select select.now rest)) }
{
    out.key(Key::Select)?;
    print_distinct(out, select.distinct)?;
    print_items(out, &select.items)?;
    print_source(out, select)
}

// Behind UNION, a select stands behind ALL.
impl Print for Select {
    ghost pieces = { print_other_select };

    fn print(&self, out: &mut Writer) -> Result<(), AllocError> {
        out.key(Key::All)?;
        print_select(out, self)
    }
}

/// Adds selects with UNION ALL between. An `Err` leaves a part of the text.
pub fn print_query(out: &mut Writer, selects: &[Select]) -> Result<(), AllocError>
    ensures { OnOk result ((rest : List Piece)
        → written out.new rest ≡ written out.old (print_query selects.now rest)) }
{
    let [first, others @ ..] = selects else {
        return Ok(());
    };
    print_select(out, first)?;
    print_more(out, Key::Union, others)
}
