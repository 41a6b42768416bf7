//! The nodes that stand one below another under a plan, as a list, so that an evaluation goes by a loop over them.
ghost use Rattle.std.specs.Prelude.{◌≡◌, map, option_map, IfOk};
ghost use Rattle.mz_eval.specs.Nodes.{AreNodes, index_node, node_below};

use mz_plan::Plan;
use std::alloc::{AllocError, Global};

/// A plan, and the plans of the indexes that it sees, the newest first.
pub type Node<'a> = (&'a Plan, &'a [(u64, Plan)]);

// The plan of an index, which sees the older ones, where the index is there.
fn index_node<'a>(plans: &'a [(u64, Plan)], item: u64) -> Option<Node<'a>>
    ensures { option_map (λ node. (node.0.now, node.1.now)) result ≡ index_node plans.now item }
{
    let mut left = plans;
    'plans: while let [newest, older @ ..] = left {
        if newest.0 == item {
            return Some((&newest.1, older));
        }
        left = older;
    }
    None
}

// The node below a plan that sees these indexes, where there is one.
fn node_below<'a>(plan: &'a Plan, plans: &'a [(u64, Plan)]) -> Option<Node<'a>>
    ensures { option_map (λ node. (node.0.now, node.1.now)) result ≡ node_below plans.now plan.now }
{
    match plan {
        Plan::Index(item) => index_node(plans, *item),
        _ => Some((plan.first()?, plans)),
    }
}

/// The plan with the indexes that it sees, the node below it, the one below that, and so on to the last.
pub fn nodes<'a>(
    alloc: Global,
    plan: &'a Plan,
    plans: &'a [(u64, Plan)],
) -> Result<Vec<Node<'a>>, AllocError>
    ensures { IfOk result (λ nodes. AreNodes (plan.now, plans.now)
        (map (λ node. (node.0.now, node.1.now)) nodes.items)) }
{
    let mut nodes = Vec::new(alloc);
    let mut next = Some((plan, plans));
    'down: while let Some(node) = next {
        nodes.push(node)?;
        next = node_below(node.0, node.1);
    }
    Ok(nodes)
}
