//! The plan of a select, operator by operator. No plan is copied.
ghost use Rattle.mz_resolution.specs.Queries.{distinct_plan, filtered_plan, grouped_plan, joined_plan, projected_plan};
ghost use Rattle.mz_plan.specs.declared.plan.Plan.TheVariants.{Join, Union};
ghost use Rattle.std.specs.Prelude.{◌≡◌, IfOk};

use mz_plan::{Aggregates, Cond, Pairs, Places, Plan};
use mz_resolution::Referred;
use sqlite_items::Boxed;
use std::alloc::{AllocError, Global};

/// The plan of a reference.
pub fn plan_of(reference: Referred) -> Plan
    ensures { result ≡ reference.relation.plan }
{
    let relation = reference.relation;
    relation.plan
}

// Two plans joined.
fn join(alloc: Global, left: Plan, right: Plan, pairs: Pairs) -> Result<Plan, AllocError>
    ensures { IfOk result (λ plan. plan ≡ Join left right pairs) }
{
    let left = Boxed::new(alloc, left)?;
    Ok(Plan::Join(left, Boxed::new(alloc, right)?, pairs))
}

// The relations joined from the left, each with its pairs of places.
fn joined_plan(
    alloc: Global,
    first: Plan,
    others: Vec<Referred>,
    pairs: Vec<Pairs>,
) -> Result<Plan, AllocError>
    ensures { IfOk result (λ plan. plan ≡ joined_plan first others.items pairs.items) }
{
    let mut plan = first;
    let mut pairs = pairs.into_iter();
    'others: for next in others {
        let Some(equal) = pairs.next() else {
            return Ok(plan);
        };
        plan = join(alloc, plan, plan_of(next), equal)?;
    }
    Ok(plan)
}

// Then the condition, where there is one.
fn filtered_plan(alloc: Global, cond: Option<Cond>, plan: Plan) -> Result<Plan, AllocError>
    ensures { IfOk result (λ filtered. filtered ≡ filtered_plan cond plan) }
{
    match cond {
        Some(cond) => Ok(Plan::Filter(Boxed::new(alloc, plan)?, cond)),
        None => Ok(plan),
    }
}

// Then the grouping, where there are keys.
fn grouped_plan(
    alloc: Global,
    keys: Option<Places>,
    aggregates: Aggregates,
    plan: Plan,
) -> Result<Plan, AllocError>
    ensures { IfOk result (λ grouped. grouped ≡ grouped_plan keys aggregates plan) }
{
    match keys {
        Some(keys) => Ok(Plan::Group(Boxed::new(alloc, plan)?, keys, aggregates)),
        None => Ok(plan),
    }
}

// Then the items, except for `*`.
fn projected_plan(alloc: Global, places: Option<Places>, plan: Plan) -> Result<Plan, AllocError>
    ensures { IfOk result (λ projected. projected ≡ projected_plan places plan) }
{
    match places {
        Some(places) => Ok(Plan::Project(Boxed::new(alloc, plan)?, places)),
        None => Ok(plan),
    }
}

// Then DISTINCT, where it is written.
fn distinct_plan(alloc: Global, distinct: bool, plan: Plan) -> Result<Plan, AllocError>
    ensures { IfOk result (λ once. once ≡ distinct_plan distinct plan) }
{
    if distinct {
        Ok(Plan::Distinct(Boxed::new(alloc, plan)?))
    } else {
        Ok(plan)
    }
}

/// The rows that a select lists: those of its references joined, by the condition.
pub fn rows_below(
    alloc: Global,
    first: Plan,
    others: Vec<Referred>,
    pairs: Vec<Pairs>,
    cond: Option<Cond>,
) -> Result<Plan, AllocError>
    ensures { IfOk result (λ plan.
        plan ≡ filtered_plan cond (joined_plan first others.items pairs.items)) }
{
    let plan = joined_plan(alloc, first, others, pairs)?;
    filtered_plan(alloc, cond, plan)
}

/// The rows that a select gives, from those that it lists.
pub fn rows_listed(
    alloc: Global,
    distinct: bool,
    keys: Option<Places>,
    aggregates: Aggregates,
    places: Option<Places>,
    below: Plan,
) -> Result<Plan, AllocError>
    ensures { IfOk result (λ plan. plan ≡ distinct_plan distinct
        (projected_plan places (grouped_plan keys aggregates below))) }
{
    let plan = grouped_plan(alloc, keys, aggregates, below)?;
    let plan = projected_plan(alloc, places, plan)?;
    distinct_plan(alloc, distinct, plan)
}

/// Two plans, of which the rows are given together.
pub fn union(alloc: Global, whole: Plan, next: Plan) -> Result<Plan, AllocError>
    ensures { IfOk result (λ plan. plan ≡ Union whole next) }
{
    let whole = Boxed::new(alloc, whole)?;
    Ok(Plan::Union(whole, Boxed::new(alloc, next)?))
}
