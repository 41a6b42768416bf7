//! The lines of a stream.
ghost use Rattle.std.specs.Prelude.{◌≡◌, ◌≤◌, IfOk, drop, length};

use mz_plan::Command;
use mz_value::Listed;
use std::alloc::{AllocError, Global};

/// The lines of a stream, in order.
pub type Commands = Listed<Command>;

/// How many lines there are. Takes no memory.
pub fn count(lines: &[Command]) -> usize
    ensures { result ≡ length lines.now }
{
    lines.len()
}

/// A copy of the lines.
pub fn copied(alloc: Global, lines: &[Command]) -> Result<Vec<Command>, AllocError>
    ensures { IfOk result (λ copy. copy.items ≡ lines.now) }
{
    let mut copy = Vec::with_capacity(alloc, lines.len())?;
    'lines: for line in lines {
        copy.push(line.try_copy(alloc)?)?;
    }
    Ok(copy)
}

/// A copy of the lines after the first so many; of none where there are no more.
pub fn copied_after(alloc: Global, lines: &[Command], taken: u64) -> Result<Commands, AllocError>
    ensures { IfOk result (λ copy. copy ≡ drop taken lines.now) }
{
    if taken >= lines.len() as u64 {
        return none(alloc, lines, taken);
    }
    Ok(Listed::from_vec(copied_from(alloc, lines, taken as usize)?))
}

// The lines after so many, of no more.
#[tactic(auto, using(crate::proofs::Lists::none_left))]
fn none(alloc: Global, lines: &[Command], taken: u64) -> Result<Commands, AllocError>
    requires { length lines.now ≤ taken }
    ensures { IfOk result (λ copy. copy ≡ drop taken lines.now) }
{
    Ok(Listed::from_vec(Vec::new(alloc)))
}

// A copy of the lines from a place on.
#[tactic(auto, using(crate::proofs::Lists::rest_is))]
fn copied_from(alloc: Global, lines: &[Command], taken: usize) -> Result<Vec<Command>, AllocError>
    requires { taken ≤ length lines.now }
    ensures { IfOk result (λ copy. copy.items ≡ drop taken lines.now) }
{
    copied(alloc, &lines[taken..])
}
