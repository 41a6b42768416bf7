//! A dataflow: a plan whose rows are kept up to date, from one time to another.
ghost use Rattle.std.specs.Prelude.{◌≡◌, ◌≤◌, ◌++◌, [], ℕ, true, false, IfOk, IsErr, OnErr, OnOk};
ghost use Rattle.mz_arrange.specs.Arranged.{IsInserted, IsSameFrom};
ghost use Rattle.mz_plan.specs.declared.plan.Plan.{Plan};
ghost use Rattle.mz_plan_laws.specs.Alike.{Alike};
ghost use Rattle.mz_updates.specs.Consolidated.{IsConsolidated};
ghost use Rattle.mz_updates.specs.Contents.{contents, IsBefore, IsFrom};
ghost use Rattle.mz_dataflow.specs.Built.{meaning_of_ints};
ghost use Rattle.mz_dataflow.specs.Flow.{contents_of, longer, LeafUpdates};
ghost use Rattle.mz_dataflow.specs.Stands.{offers_of, with_offer, CanRunTo, IsNew, Stands};

use crate::building::build;
use crate::flowing::ran_to;
use crate::node::Node;
use crate::offers::add_offer;
use mz_arrange::Arrangement;
use mz_plan::Plan;
use mz_time::Time;
use mz_updates::Updates;
use std::alloc::{AllocError, Global};
use std::mem;

/// The nodes of a plan, what was offered of its leaves, and its rows with their history.
#[derive(Drop)]
pub struct Dataflow {
    alloc: Global,
    nodes: Vec<Node>,
    // What came since the last run, one list for each leaf.
    offered: Vec<(u64, Updates)>,
    // The rows of the plan, up to the time that the dataflow has come to.
    output: Arrangement,
    // What the last run changed of them.
    changes: Updates,
    // Whether a run wanted memory: then it stands for nothing.
    broken: bool,
}

impl Dataflow {
    /// The dataflow of a plan that was offered nothing yet, whose output can be read from a time on. Leaves are
    /// told at that time what they have then. O(k) for k operators.
    pub fn build(alloc: Global, plan: &Plan, as_of: Time) -> Result<Dataflow, AllocError>
        ensures stands { IfOk result (λ flow. Stands plan.now flow (λ item. [])) }
        ensures fresh { IfOk result (IsNew as_of) }
        ensures broken { IfOk result (λ flow. flow.broken ≡ false) }
    {
        let nodes = build(alloc, plan)?;
        let output = Arrangement::at(alloc, as_of);
        Ok(Dataflow {
            alloc,
            nodes,
            offered: Vec::new(alloc),
            output,
            changes: Updates::empty(alloc),
            broken: false,
        })
    }

    /// Offers updates of a leaf for the next run, which wants them at or after the upper. Those of a leaf that was
    /// offered some since the last run come behind them. After an `Err` nothing more is offered. O(k + m), where
    /// k leaves were offered updates, and there are m.
    pub fn offer(&mut self, leaf: u64, updates: Updates) -> Result<(), AllocError>
        ensures ok { OnOk result ((item : ℕ)
            → offers_of self.new item ≡ with_offer leaf updates (offers_of self.old) item) }
        ensures err { OnErr result ((item : ℕ)
            → offers_of self.new item ≡ offers_of self.old item) }
        ensures nodes { self.new.nodes ≡ self.old.nodes }
        ensures output { self.new.output ≡ self.old.output }
        ensures changes { self.new.changes ≡ self.old.changes }
        ensures broken { self.new.broken ≡ self.old.broken }
        ensures stands { (plan : Plan) (us : LeafUpdates)
            → Stands plan self.old us → Stands plan self.new us }
    {
        add_offer(&mut self.offered, leaf, updates)
    }

    /// Runs the nodes over what was offered, one time after another, up to a time. After an `Err` it answers `Err` from
    /// then on. O(k) for k leaves where nothing was offered; else what the operators take, and a pass over all k nodes
    /// for each time at which a leaf changes.
    pub fn run_to(&mut self, upper: Time) -> Result<(), AllocError>
        requires { self.old.broken ≡ false → CanRunTo self.old upper }
        ensures stands { OnOk result ((plan : Plan) (us : LeafUpdates)
            → Stands plan self.old us → Stands plan self.new (longer us (offers_of self.old))) }
        ensures gives { OnOk result ((plan : Plan) (us : LeafUpdates) → Stands plan self.old us
            → (t : ℕ) → Alike (meaning_of_ints (contents_of t (longer us (offers_of self.old))) plan)
            (meaning_of_ints (contents_of t us) plan ++ contents t self.new.changes)) }
        ensures output { OnOk result
            (IsInserted self.new.changes upper self.old.output self.new.output) }
        ensures once { OnOk result (IsConsolidated self.new.changes) }
        ensures from { OnOk result (IsFrom self.old.output.upper self.new.changes) }
        ensures before { OnOk result (IsBefore upper self.new.changes) }
        ensures offers { OnOk result (self.new.offered.items ≡ []) }
        ensures spent { self.old.broken ≡ true → IsErr result }
        ensures breaks { OnErr result (self.new.broken ≡ true) }
        ensures goes_on { OnOk result (self.new.broken ≡ false) }
    {
        if self.broken {
            return Err(AllocError);
        }
        self.broken = true;
        let offered = mem::replace(&mut self.offered, Vec::new(self.alloc));
        let changes = ran_to(
            self.alloc,
            &mut self.nodes,
            &mut self.output,
            offered,
            upper,
        )?;
        self.changes = changes;
        self.broken = false;
        Ok(())
    }

    /// The plan's rows, from the since on and below the upper. Takes no memory.
    pub fn output(&self) -> &Arrangement
        ensures { result.now ≡ self.now.output }
    {
        &self.output
    }

    /// What the last run changed of the plan's rows: one update for each row and time, in order of time. Takes no memory.
    pub fn changes(&self) -> &Updates
        ensures { result.now ≡ self.now.changes }
    {
        &self.changes
    }

    /// Lets the past of the output before a time go. Takes no memory. O(1).
    pub fn allow(&mut self, since: Time)
        requires { self.old.output.since ≤ since }
        ensures output { IsSameFrom since self.old.output self.new.output }
        ensures nodes { self.new.nodes ≡ self.old.nodes }
        ensures offers { self.new.offered ≡ self.old.offered }
        ensures changes { self.new.changes ≡ self.old.changes }
        ensures broken { self.new.broken ≡ self.old.broken }
        ensures stands { (plan : Plan) (us : LeafUpdates)
            → Stands plan self.old us → Stands plan self.new us }
    {
        self.output.allow(since);
    }

    /// The first time at which the output can be read. Takes no memory.
    pub fn since(&self) -> Time
        ensures { result ≡ self.now.output.since }
    {
        self.output.since()
    }

    /// The first time to which no run has come yet. Takes no memory.
    pub fn upper(&self) -> Time
        ensures { result ≡ self.now.output.upper }
    {
        self.output.upper()
    }
}
