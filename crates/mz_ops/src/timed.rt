//! An operator that is told updates: each time's changes by themselves, in order of time.
ghost use Rattle.std.specs.Prelude.{◌≡◌, ◌≤◌, ℕ, false, List, IfOk, OnOk};
ghost use Rattle.mz_bag.specs.Weighted.{Weighted};
ghost use Rattle.mz_updates.specs.declared.update.Update.{Update};
ghost use Rattle.mz_updates.specs.Consolidated.{IsConsolidated};
ghost use Rattle.mz_updates.specs.Contents.{HasSums, IsBefore, IsFrom, SameContents};
ghost use Rattle.mz_ops.specs.Change.{IsBearable};
ghost use Rattle.mz_ops.specs.Moments.{IsRun};
ghost use Rattle.mz_ops.specs.Step.{IsBearableStep, IsStep, StandsBefore};
ghost use Rattle.mz_ops.specs.Stepping.{HasStepped, IsReady, IsTold};

use crate::moments::{first_time, run_at};
use crate::{Changing, Operator};
use mz_time::Time;
use mz_updates::{Update, Updates};
use mz_value::TryCopy;
use std::alloc::{AllocError, Global};
use std::collections::VecDeque;

/// An operator on rows, with the time that it has come to.
#[derive(Drop)]
pub struct Timed<C> {
    core: C,
    // The first time of which it was told nothing yet.
    upper: Time,
    since: Time,
    // Whether a step wanted memory: then it stands for nothing.
    broken: bool,
}

// Tells the changes at a time, and puts what comes of them behind the output.
fn tell<C: Changing>(
    alloc: Global,
    core: &mut C,
    lefts: &mut VecDeque<Update>,
    rights: &mut VecDeque<Update>,
    out: &mut Updates,
    time: Time,
) -> Result<(), AllocError>
    requires { (ls rs : Weighted) (us vs : List Update)
        → IsRun time lefts.old.items ls us → IsRun time rights.old.items rs vs
        → IsBearable (C.stands core.old) (C.load core.old) ls rs }
    ensures told { OnOk result (IsTold (C.meaning core.old) (C.load core.old)
        (C.stands core.old) (C.stands core.new) time lefts.old.items rights.old.items
        lefts.new.items rights.new.items out.old out.new) }
    ensures same { OnOk result (C.meaning core.new ≡ C.meaning core.old) }
    ensures same_load { OnOk result (C.load core.new ≡ C.load core.old) }
{
    let left = run_at(alloc, lefts, time)?;
    let right = run_at(alloc, rights, time)?;
    let rows = core.change(alloc, left, right)?;
    out.append(time, rows)?;
    Ok(())
}

// Tells all changes, one time after another, and moves the time on.
fn tell_all<C: Changing>(
    alloc: Global,
    core: &mut C,
    now: &mut Time,
    mut lefts: VecDeque<Update>,
    mut rights: VecDeque<Update>,
    upper: Time,
) -> Result<Updates, AllocError>
    requires { IsReady (C.stands core.old) (C.load core.old) now.old upper
        lefts.items rights.items }
    ensures stepped { IfOk result (λ out. HasStepped (C.meaning core.old) (C.stands core.old)
        (C.stands core.new) now.old upper lefts.items rights.items out) }
    ensures now { OnOk result (now.new ≡ upper) }
    ensures same { OnOk result (C.meaning core.new ≡ C.meaning core.old) }
{
    let mut out = Updates::empty(alloc);
    'times: while let Some(time) = first_time(&lefts, &rights) {
        tell(alloc, core, &mut lefts, &mut rights, &mut out, time)?;
    }
    *now = upper;
    Ok(out)
}

// The updates in order of time, each row of a time once, in a queue.
fn queued(alloc: Global, updates: &Updates) -> Result<VecDeque<Update>, AllocError>
    requires { HasSums updates.now }
    ensures contents { IfOk result (λ queue. SameContents queue.items updates.now) }
    ensures once { IfOk result (λ queue. IsConsolidated queue.items) }
    ensures from { IfOk result (λ queue. (lower : ℕ)
        → IsFrom lower updates.now → IsFrom lower queue.items) }
    ensures before { IfOk result (λ queue. (upper : ℕ)
        → IsBefore upper updates.now → IsBefore upper queue.items) }
{
    let mut copy = updates.try_copy(alloc)?;
    copy.consolidate();
    Ok(VecDeque::from(copy.into_vec()))
}

// Tells the updates of both sides up to a time, and gives those of the output, consolidated.
fn stepped<C: Changing>(
    alloc: Global,
    core: &mut C,
    now: &mut Time,
    left: &Updates,
    right: &Updates,
    upper: Time,
) -> Result<Updates, AllocError>
    requires later { now.old ≤ upper }
    requires left_from { IsFrom now.old left.now }
    requires left_before { IsBefore upper left.now }
    requires right_from { IsFrom now.old right.now }
    requires right_before { IsBefore upper right.now }
    requires bears { IsBearableStep (C.stands core.old) (C.load core.old) now.old upper
        left.now right.now }
    ensures law { IfOk result (λ out. IsStep (C.meaning core.old)
        (StandsBefore now.old (C.stands core.old)) (StandsBefore upper (C.stands core.new))
        left.now right.now out) }
    ensures from { IfOk result (λ out. IsFrom now.old out) }
    ensures before { IfOk result (λ out. IsBefore upper out) }
    ensures once { IfOk result (λ out. IsConsolidated out) }
    ensures now { OnOk result (now.new ≡ upper) }
    ensures same { OnOk result (C.meaning core.new ≡ C.meaning core.old) }
{
    let lefts = queued(alloc, left)?;
    let rights = queued(alloc, right)?;
    let mut out = tell_all(alloc, core, now, lefts, rights, upper)?;
    out.consolidate();
    Ok(out)
}

impl<C> Timed<C> {
    /// An operator that was told nothing yet, whose since and upper are time 0. Takes no memory.
    pub fn fresh(core: C) -> Timed<C>
        ensures core { result.core ≡ core }
        ensures upper { result.upper ≡ 0 }
        ensures since { result.since ≡ 0 }
        ensures broken { result.broken ≡ false }
    {
        Timed {
            core,
            upper: Time::zero(),
            since: Time::zero(),
            broken: false,
        }
    }
}

impl<C: Changing> Operator for Timed<C> {
    ghost use Rattle.mz_ops.specs.Step.{IsBearableStep, StandsBefore};

    ghost meaning = { λ op. C.meaning op.core };

    ghost stands = { λ op us vs. StandsBefore op.upper (C.stands op.core) us vs };

    ghost upper = { λ op. op.upper };

    ghost since = { λ op. op.since };

    ghost broken = { λ op. op.broken };

    ghost bears = { λ op next left right.
        IsBearableStep (C.stands op.core) (C.load op.core) op.upper next left right };

    fn step(
        &mut self,
        alloc: Global,
        left: &Updates,
        right: &Updates,
        next: Time,
    ) -> Result<Updates, AllocError> {
        if self.broken {
            return Err(AllocError);
        }
        self.broken = true;
        let out = stepped(alloc, &mut self.core, &mut self.upper, left, right, next)?;
        self.broken = false;
        Ok(out)
    }

    fn allow(&mut self, oldest: Time) {
        self.since = oldest;
    }
}
