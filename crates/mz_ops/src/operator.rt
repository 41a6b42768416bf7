//! What every operator promises of a step from one time to the next.
ghost use Rattle.std.specs.Prelude.{◌≡◌, ◌≤◌, ℕ, Bool, true, false, List, IfOk, IsErr, OnErr, OnOk};
ghost use Rattle.mz_bag.specs.Weighted.{Weighted};
ghost use Rattle.mz_updates.specs.declared.update.Update.{Update};
ghost use Rattle.mz_updates.specs.Consolidated.{IsConsolidated};
ghost use Rattle.mz_updates.specs.Contents.{IsBefore, IsFrom};
ghost use Rattle.mz_ops.specs.Step.{IsStep};

use mz_time::Time;
use mz_updates::Updates;
use std::alloc::{AllocError, Global};

/// What is told the updates of two sides, and answers the updates of what it makes of them.
pub trait Operator {
    /// What it makes of the rows of its sides.
    ghost meaning: { Self → Weighted → Weighted → Weighted };

    /// It stands for these updates of its sides.
    ghost stands: { Self → List Update → List Update → Type 0 };

    /// The first time of which it was told nothing yet.
    ghost upper: { Self → ℕ };

    /// The first time at which its output is read.
    ghost since: { Self → ℕ };

    /// A step wanted memory.
    ghost broken: { Self → Bool };

    /// A step to a time with these updates is within the bound.
    ghost bears: { Self → ℕ → List Update → List Update → Type 0 };

    /// Takes the updates of both sides up to a time, and answers those of its output, consolidated.
    /// An operator of one
    /// side takes none on the right. After an `Err` it answers an `Err` from then on.
    fn step(
        &mut self,
        alloc: Global,
        left: &Updates,
        right: &Updates,
        next: Time,
    ) -> Result<Updates, AllocError>
        requires later { upper self.old ≤ next }
        requires left_from { IsFrom (upper self.old) left.now }
        requires left_before { IsBefore next left.now }
        requires right_from { IsFrom (upper self.old) right.now }
        requires right_before { IsBefore next right.now }
        requires bears { bears self.old next left.now right.now }
        ensures law { IfOk result (λ out. IsStep (meaning self.old)
            (stands self.old) (stands self.new) left.now right.now out) }
        ensures from { IfOk result (λ out. IsFrom (upper self.old) out) }
        ensures before { IfOk result (λ out. IsBefore next out) }
        ensures once { IfOk result (λ out. IsConsolidated out) }
        ensures upper { OnOk result (upper self.new ≡ next) }
        ensures since { since self.new ≡ since self.old }
        ensures same { OnOk result (meaning self.new ≡ meaning self.old) }
        ensures spent { broken self.old ≡ true → IsErr result }
        ensures breaks { OnErr result (broken self.new ≡ true) }
        ensures goes_on { OnOk result (broken self.new ≡ false) };

    /// Lets the past before a time go. Takes no memory. O(1).
    fn allow(&mut self, oldest: Time)
        requires { since self.old ≤ oldest }
        ensures since { since self.new ≡ oldest }
        ensures upper { upper self.new ≡ upper self.old }
        ensures same { meaning self.new ≡ meaning self.old }
        ensures stands { (us vs : List Update) → stands self.old us vs → stands self.new us vs }
        ensures broken { broken self.new ≡ broken self.old };
}
