//! Runs of nodes at one time after another.
ghost use Rattle.std.specs.Prelude.{◌++◌, ℕ, map, IfOk};
ghost use Rattle.std.specs.List.{AllByRecursion as Each};
ghost use Rattle.mz_arrange.specs.Arranged.{IsInserted};
ghost use Rattle.mz_plan.specs.declared.plan.Plan.{Plan};
ghost use Rattle.mz_plan_laws.specs.Alike.{Alike};
ghost use Rattle.mz_updates.specs.Consolidated.{IsConsolidated};
ghost use Rattle.mz_updates.specs.Contents.{contents, HasSums, IsBefore, IsFrom};
ghost use Rattle.mz_dataflow.specs.Built.{meaning_of_ints};
ghost use Rattle.mz_dataflow.specs.Flow.{contents_of, longer, LeafUpdates};
ghost use Rattle.mz_dataflow.specs.Flown.{CanFlow, HasFlown, IsReady};
ghost use Rattle.mz_dataflow.specs.Queues.{updates_of, AreQueued, IsInQueue};
ghost use Rattle.mz_dataflow.specs.Stands.{CanGoTo, StandsWith};

use crate::node::Node;
use crate::queues::{changes_at, next_time};
use crate::running::run;
use mz_arrange::Arrangement;
use mz_time::Time;
use mz_updates::{Update, Updates};
use mz_value::TryCopy;
use std::alloc::{AllocError, Global};
use std::collections::VecDeque;

// A leaf's updates in order of time, each row of a time once. Takes no memory.
fn queue_of(mut updates: Updates) -> VecDeque<Update>
    requires { HasSums updates }
    ensures { IsInQueue updates result.items }
{
    updates.consolidate();
    VecDeque::from(updates.into_vec())
}

// And those of each leaf. O(m log m), where there are m updates.
fn queued(
    alloc: Global,
    offered: Vec<(u64, Updates)>,
) -> Result<Vec<(u64, VecDeque<Update>)>, AllocError>
    requires { Each (λ q. HasSums q.1) offered.items }
    ensures { IfOk result (λ queues.
        AreQueued offered.items (map (λ q. (q.0, q.1.items)) queues.items)) }
{
    let mut queues = Vec::new(alloc);
    'leaves: for (leaf, updates) in offered {
        let queue = queue_of(updates);
        queues.push((leaf, queue))?;
    }
    Ok(queues)
}

// Runs the nodes at each time at which a leaf changes, and gives what they make of it.
fn run_times(
    alloc: Global,
    nodes: &mut Vec<Node>,
    mut queues: Vec<(u64, VecDeque<Update>)>,
) -> Result<Updates, AllocError>
    requires { CanFlow nodes.old.items (map (λ q. (q.0, q.1.items)) queues.items) }
    ensures { IfOk result (λ out. (lower upper : ℕ)
        → IsReady lower upper nodes.old.items (map (λ q. (q.0, q.1.items)) queues.items)
        → HasFlown lower upper nodes.old.items nodes.new.items
        (updates_of (map (λ q. (q.0, q.1.items)) queues.items)) out) }
{
    let mut out = Updates::empty(alloc);
    'times: while let Some(time) = next_time(&queues) {
        let changes = changes_at(alloc, &mut queues, time)?;
        let rows = run(alloc, nodes, &changes)?;
        out.append(time, rows)?;
    }
    Ok(out)
}

/// Runs the nodes over updates of their leaves up to a time, puts what they make of it in the output, and gives it,
/// consolidated. After an `Err` the nodes may stand for nothing.
pub fn ran_to(
    alloc: Global,
    nodes: &mut Vec<Node>,
    output: &mut Arrangement,
    offered: Vec<(u64, Updates)>,
    upper: Time,
) -> Result<Updates, AllocError>
    requires { CanGoTo nodes.old.items output.old offered.items upper }
    ensures stands { IfOk result (λ out. (plan : Plan) (us : LeafUpdates)
        → StandsWith plan nodes.old.items output.old us
        → StandsWith plan nodes.new.items output.new (longer us (updates_of offered.items))) }
    ensures gives { IfOk result (λ out. (plan : Plan) (us : LeafUpdates)
        → StandsWith plan nodes.old.items output.old us
        → (t : ℕ) → Alike (meaning_of_ints (contents_of t (longer us (updates_of offered.items))) plan)
        (meaning_of_ints (contents_of t us) plan ++ contents t out)) }
    ensures output { IfOk result (λ out. IsInserted out upper output.old output.new) }
    ensures once { IfOk result IsConsolidated }
    ensures from { IfOk result (IsFrom output.old.upper) }
    ensures before { IfOk result (IsBefore upper) }
{
    let _since = output.since();
    let queues = queued(alloc, offered)?;
    let mut out = run_times(alloc, nodes, queues)?;
    out.consolidate();
    let copy = out.try_copy(alloc)?;
    output.insert(copy, upper)?;
    Ok(out)
}
