//! Readers of selects and queries.
ghost use Rattle.std.specs.Prelude.{◌≡◌, List};
ghost use Rattle.mz_parse.specs.Reading.{Gives, reference_at, pair_at, join_at, joins_at, group_at, aggregate, is_aggregate, expression_from, expression_at, item_at, items_at, distinct_at, select_from, select_at, all_select_at, unions_at, query_at, column_at, counted_at, aggregated_at};
ghost use Rattle.mz_grammar.specs.Token.{next};
ghost use Rattle.mz_grammar.specs.declared.key.Key.TheVariants as k;

use crate::condition::where_test;
use crate::list::{Reader, listed};
use crate::reading::{Read, alias, begins_as_of, column, column_from, expect, name, stuck, word};
use mz_grammar::{Key, Tok, Word, after};
use mz_statement::{
    ColumnName, ColumnNames, ColumnPair, ColumnPairs, Expression, Join, Joins, Query, Reference,
    Select, SelectItem, SelectItems,
};
use std::alloc::Global;

// A relation with its alias. Where the query may end here, AS OF is no alias.
fn reference<'a>(alloc: Global, may_end: bool, tokens: &'a [Tok<'a>]) -> Read<'a, Reference>
    ensures { Gives (λ x. (x.0, x.1.now)) result (reference_at may_end tokens.now) }
{
    let (name, rest) = name(alloc, tokens)?;
    if may_end && begins_as_of(rest) {
        return Ok((Reference { name, alias: None }, rest));
    }
    let (alias, rest) = alias(alloc, rest)?;
    Ok((Reference { name, alias }, rest))
}

// Two columns with an equal sign between.
fn pair<'a>(alloc: Global, tokens: &'a [Tok<'a>]) -> Read<'a, ColumnPair>
    ensures { Gives (λ x. (x.0, x.1.now)) result (pair_at tokens.now) }
{
    let (left, rest) = column(alloc, tokens)?;
    let rest = expect(Key::Equal, rest)?;
    let (right, rest) = column(alloc, rest)?;
    Ok((ColumnPair { left, right }, rest))
}

// Reads the pairs of a join.
#[derive(Clone, Copy)]
struct PairReader;

impl Reader<ColumnPair> for PairReader {
    ghost reads = { λ _. pair_at };

    fn read<'a>(&self, alloc: Global, tokens: &'a [Tok<'a>]) -> Read<'a, ColumnPair> {
        pair(alloc, tokens)
    }
}

// What stands behind JOIN.
fn join<'a>(alloc: Global, tokens: &'a [Tok<'a>]) -> Read<'a, Join>
    ensures { Gives (λ x. (x.0, x.1.now)) result (join_at tokens.now) }
{
    let (reference, rest) = reference(alloc, false, tokens)?;
    let rest = expect(Key::On, rest)?;
    let (pairs, rest) = listed(alloc, Key::And, &PairReader, rest)?;
    let pairs = ColumnPairs::from_vec(pairs);
    Ok((Join { reference, pairs }, rest))
}

// Reads what stands behind each JOIN.
#[derive(Clone, Copy)]
struct JoinReader;

impl Reader<Join> for JoinReader {
    ghost reads = { λ _. join_at };

    fn read<'a>(&self, alloc: Global, tokens: &'a [Tok<'a>]) -> Read<'a, Join> {
        join(alloc, tokens)
    }
}

// The joins, if there are some.
fn joins<'a>(alloc: Global, tokens: &'a [Tok<'a>]) -> Read<'a, Joins>
    ensures { Gives (λ x. (x.0, x.1.now)) result (joins_at tokens.now) }
{
    match after(Key::Join, tokens) {
        Some(rest) => {
            let (list, rest) = listed(alloc, Key::Join, &JoinReader, rest)?;
            Ok((Joins::from_vec(list), rest))
        }
        None => Ok((Joins::from_vec(Vec::new(alloc)), tokens)),
    }
}

// Reads the columns behind GROUP BY.
#[derive(Clone, Copy)]
struct ColumnReader;

impl Reader<ColumnName> for ColumnReader {
    ghost reads = { λ _. column_at };

    fn read<'a>(&self, alloc: Global, tokens: &'a [Tok<'a>]) -> Read<'a, ColumnName> {
        column(alloc, tokens)
    }
}

// The columns behind GROUP BY, if GROUP stands first.
fn group<'a>(alloc: Global, tokens: &'a [Tok<'a>]) -> Read<'a, ColumnNames>
    ensures { Gives (λ x. (x.0, x.1.now)) result (group_at tokens.now) }
{
    match after(Key::Group, tokens) {
        Some(rest) => {
            let rest = expect(Key::By, rest)?;
            let (list, rest) = listed(alloc, Key::Comma, &ColumnReader, rest)?;
            Ok((ColumnNames::from_vec(list), rest))
        }
        None => Ok((ColumnNames::from_vec(Vec::new(alloc)), tokens)),
    }
}

// Whether the word is an aggregate of a column.
fn is_aggregate(word: &Word) -> bool
    ensures { result ≡ is_aggregate word.now }
{
    word.is("sum") || word.is("min") || word.is("max")
}

// Which aggregate of the column it is.
fn aggregate(word: &Word, column: ColumnName) -> Expression
    ensures { result ≡ aggregate word.now column }
{
    if word.is("sum") {
        Expression::Sum(column)
    } else if word.is("min") {
        Expression::Min(column)
    } else {
        Expression::Max(column)
    }
}

// What stands in the parentheses of COUNT.
fn counted<'a>(tokens: &'a [Tok<'a>]) -> Read<'a, Expression>
    ensures { Gives (λ x. (x.0, x.1.now)) result (counted_at tokens.now) }
{
    let rest = expect(Key::Star, tokens)?;
    let rest = expect(Key::Close, rest)?;
    Ok((Expression::Count, rest))
}

// What stands in the parentheses of another aggregate.
fn aggregated<'a>(alloc: Global, word: &Word, tokens: &'a [Tok<'a>]) -> Read<'a, Expression>
    ensures { Gives (λ x. (x.0, x.1.now)) result (aggregated_at word.now tokens.now) }
{
    let (column, rest) = column(alloc, tokens)?;
    let rest = expect(Key::Close, rest)?;
    Ok((aggregate(word, column), rest))
}

// The expression whose first word was read.
fn expression_from<'a>(alloc: Global, word: &Word, tokens: &'a [Tok<'a>]) -> Read<'a, Expression>
    ensures { Gives (λ x. (x.0, x.1.now)) result
        (expression_from word.now tokens.now (next k.Open tokens.now)) }
{
    match after(Key::Open, tokens) {
        Some(rest) => {
            if word.is("count") {
                counted(rest)
            } else if is_aggregate(word) {
                aggregated(alloc, word, rest)
            } else {
                Err(stuck(tokens))
            }
        }
        None => {
            let (column, rest) = column_from(alloc, word.name(alloc)?, tokens)?;
            Ok((Expression::Column(column), rest))
        }
    }
}

// A column or an aggregate.
fn expression<'a>(alloc: Global, tokens: &'a [Tok<'a>]) -> Read<'a, Expression>
    ensures { Gives (λ x. (x.0, x.1.now)) result (expression_at tokens.now) }
{
    let (word, rest) = word(tokens)?;
    expression_from(alloc, word, rest)
}

// An item with its alias.
fn item<'a>(alloc: Global, tokens: &'a [Tok<'a>]) -> Read<'a, SelectItem>
    ensures { Gives (λ x. (x.0, x.1.now)) result (item_at tokens.now) }
{
    let (expression, rest) = expression(alloc, tokens)?;
    let (alias, rest) = alias(alloc, rest)?;
    Ok((SelectItem { expression, alias }, rest))
}

// Reads the items of a select.
#[derive(Clone, Copy)]
struct ItemReader;

impl Reader<SelectItem> for ItemReader {
    ghost reads = { λ _. item_at };

    fn read<'a>(&self, alloc: Global, tokens: &'a [Tok<'a>]) -> Read<'a, SelectItem> {
        item(alloc, tokens)
    }
}

// The items, or a star.
fn items<'a>(alloc: Global, tokens: &'a [Tok<'a>]) -> Read<'a, Option<SelectItems>>
    ensures { Gives (λ x. (x.0, x.1.now)) result (items_at tokens.now) }
{
    match after(Key::Star, tokens) {
        Some(rest) => Ok((None, rest)),
        None => {
            let (list, rest) = listed(alloc, Key::Comma, &ItemReader, tokens)?;
            Ok((Some(SelectItems::from_vec(list)), rest))
        }
    }
}

// Whether DISTINCT stands first, and what stands behind it.
fn distinct<'a>(tokens: &'a [Tok<'a>]) -> (bool, &'a [Tok<'a>])
    ensures { distinct_at tokens.now ≡ (result.0, result.1.now) }
{
    match after(Key::Distinct, tokens) {
        Some(rest) => (true, rest),
        None => (false, tokens),
    }
}

// The parts of a select behind its items.
fn select_from<'a>(
    alloc: Global,
    may_end: bool,
    distinct: bool,
    items: Option<SelectItems>,
    tokens: &'a [Tok<'a>],
) -> Read<'a, Select>
    ensures { Gives (λ x. (x.0, x.1.now)) result
        (select_from may_end distinct items tokens.now) }
{
    let rest = expect(Key::From, tokens)?;
    let (first, rest) = reference(alloc, may_end, rest)?;
    let (joins, rest) = joins(alloc, rest)?;
    let (test, rest) = where_test(alloc, rest)?;
    let (group, rest) = group(alloc, rest)?;
    let select = Select {
        distinct,
        items,
        first,
        joins,
        test,
        group,
    };
    Ok((select, rest))
}

// A select.
fn select<'a>(alloc: Global, may_end: bool, tokens: &'a [Tok<'a>]) -> Read<'a, Select>
    ensures { Gives (λ x. (x.0, x.1.now)) result (select_at may_end tokens.now) }
{
    let rest = expect(Key::Select, tokens)?;
    let (distinct, rest) = distinct(rest);
    let (items, rest) = items(alloc, rest)?;
    select_from(alloc, may_end, distinct, items, rest)
}

// A select behind ALL.
fn all_select<'a>(alloc: Global, may_end: bool, tokens: &'a [Tok<'a>]) -> Read<'a, Select>
    ensures { Gives (λ x. (x.0, x.1.now)) result (all_select_at may_end tokens.now) }
{
    let rest = expect(Key::All, tokens)?;
    select(alloc, may_end, rest)
}

// Reads what stands behind each UNION.
#[derive(Clone, Copy)]
struct SelectReader {
    may_end: bool,
}

impl Reader<Select> for SelectReader {
    ghost reads = { λ r. all_select_at r.may_end };

    fn read<'a>(&self, alloc: Global, tokens: &'a [Tok<'a>]) -> Read<'a, Select> {
        all_select(alloc, self.may_end, tokens)
    }
}

// The selects behind UNION ALL, if there are some.
fn unions<'a>(alloc: Global, may_end: bool, tokens: &'a [Tok<'a>]) -> Read<'a, Vec<Select>>
    ensures { Gives (λ x. (x.0.items, x.1.now)) result (unions_at may_end tokens.now) }
{
    match after(Key::Union, tokens) {
        Some(rest) => listed(alloc, Key::Union, &SelectReader { may_end }, rest),
        None => Ok((Vec::new(alloc), tokens)),
    }
}

/// A query. Where it may end at its first relation, AS OF is no alias there.
pub fn query<'a>(alloc: Global, may_end: bool, tokens: &'a [Tok<'a>]) -> Read<'a, Query>
    ensures { Gives (λ x. (x.0, x.1.now)) result (query_at may_end tokens.now) }
{
    let (first, rest) = select(alloc, may_end, tokens)?;
    let (mut others, rest) = unions(alloc, may_end, rest)?;
    let mut selects = Vec::new(alloc);
    selects.push(first)?;
    selects.append(&mut others)?;
    Ok((Query::from_vec(selects), rest))
}
