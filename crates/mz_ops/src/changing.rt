//! What every operator promises of a change of its sides, at one time.
ghost use Rattle.std.specs.Prelude.{◌≡◌, ℕ, IfOk};
ghost use Rattle.mz_bag.specs.Weighted.{Weighted};
ghost use Rattle.mz_ops.specs.Change.{IsBearable, IsChange, IsLoad, IsWithin, ReadsCounts};

use mz_bag::CountedRows;
use std::alloc::{AllocError, Global};

/// What is told the changes of two sides, and answers the change of what it makes of them.
pub trait Changing {
    /// What it makes of the rows of its sides.
    ghost meaning: { Self → Weighted → Weighted → Weighted };

    /// It stands for these rows of its sides.
    ghost stands: { Self → Weighted → Weighted → Type 0 };

    /// The most that a change weighs, and that is added and multiplied on the way to it: of the
    /// masses of both sides
    /// before, and then of their changes.
    ghost load: { Self → ℕ → ℕ → ℕ → ℕ → ℕ };

    /// The change of what it makes, where the sides change so. After an `Err` it may stand for
    /// nothing.
    fn change(
        &mut self,
        alloc: Global,
        left: CountedRows,
        right: CountedRows,
    ) -> Result<CountedRows, AllocError>
        requires { IsBearable (stands self.old) (load self.old) left right }
        ensures law { IfOk result (λ out.
            IsChange (meaning self.old) (stands self.old) (stands self.new) left right out) }
        ensures light { IfOk result (λ out.
            IsWithin (stands self.old) (load self.old) left right out) }
        ensures same { meaning self.new ≡ meaning self.old }
        ensures same_load { load self.new ≡ load self.old };

    /// It reads counts alone.
    ghost reads: { (op : Self) → ReadsCounts (meaning op) (stands op) };

    /// Its load is one.
    ghost loads: { (op : Self) → IsLoad (load op) };
}
