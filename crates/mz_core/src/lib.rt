//! What a core is: the calls that a script is carried out by, and what they are answered, in the words of logs.
//! Promises that who calls a core and who is one say the same (`src/core_calls.rt`, `specs/Told.antt`).
//! Stands on `mz_books`, which has what a log gives each call; `mz_world` calls a core, and `mz_plain` is one.
#![tactic(auto)]

mod calls;
mod core_calls;
mod fault;

pub use calls::{BegunRound, FinishedRead, RoundDone, RoundReply, Submitted, Waiting};
pub use core_calls::Core;
pub use fault::BeginFault;
