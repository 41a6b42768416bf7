//! The nodes of a plan.
ghost use Rattle.std.specs.Prelude.{[], IfOk, List, OnOk};
ghost use Rattle.mz_plan.specs.Spine.{first_of};
ghost use Rattle.mz_dataflow.specs.Built.{IsBuilt, IsBuiltOn};
ghost use Rattle.mz_dataflow.specs.declared.node.Node.{Node};

use crate::node::Node;
use crate::operators::{
    distinct_node, filter_node, group_node, join_node, project_node, union_node,
};
use crate::spine::spine;
use mz_plan::Plan;
use std::alloc::{AllocError, Global};

// Pushes the rest of a plan's nodes behind those of the first plan below it: those of the plan to the
// right, where there is one, and its operator's.
#[cycle(pushes)]
fn push_rest(alloc: Global, plan: &Plan, nodes: &mut Vec<Node>) -> Result<(), AllocError>
    ensures { OnOk result ((front : List Node)
        → IsBuiltOn front (first_of plan.now) nodes.old.items
        → IsBuilt plan.now front nodes.new.items) }
{
    match plan {
        Plan::Table(item) => nodes.push(Node::Leaf(*item))?,
        Plan::Index(item) => nodes.push(Node::Leaf(*item))?,
        Plan::Filter(_below, cond) => {
            let node = filter_node(alloc, cond)?;
            nodes.push(node)?;
        }
        Plan::Project(_below, places) => {
            let node = project_node(alloc, places)?;
            nodes.push(node)?;
        }
        Plan::Join(_left, right, pairs) => {
            push_plan(alloc, right.get(), nodes)?;
            let node = join_node(alloc, pairs)?;
            nodes.push(node)?;
        }
        Plan::Union(_left, right) => {
            push_plan(alloc, right.get(), nodes)?;
            let node = union_node();
            nodes.push(node)?;
        }
        Plan::Group(_below, places, aggregates) => {
            let node = group_node(alloc, places, aggregates)?;
            nodes.push(node)?;
        }
        Plan::Distinct(_below) => {
            let node = distinct_node(alloc);
            nodes.push(node)?;
        }
    }
    Ok(())
}

// Pushes a plan's nodes, by a loop from the end of its spine.
#[cycle(pushes)]
fn push_plan(alloc: Global, plan: &Plan, nodes: &mut Vec<Node>) -> Result<(), AllocError>
    ensures { OnOk result (IsBuilt plan.now nodes.old.items nodes.new.items) }
{
    let mut spine = spine(alloc, plan)?;
    'up: while let Some(one) = spine.pop() {
        push_rest(alloc, one, nodes)?;
    }
    Ok(())
}

/// The nodes of a plan, each behind those whose rows it takes, which were told nothing yet. They are
/// made by a loop along the plan's spine, so calls nest as deep as joins and unions do to the right.
pub fn build(alloc: Global, plan: &Plan) -> Result<Vec<Node>, AllocError>
    ensures { IfOk result (λ nodes. IsBuilt plan.now [] nodes.items) }
{
    let mut nodes = Vec::new(alloc);
    push_plan(alloc, plan, &mut nodes)?;
    Ok(nodes)
}
