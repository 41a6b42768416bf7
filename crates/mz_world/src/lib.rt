//! The machine of a script over a core: what each line does, and the text that answers it.
//! Promises that each line does what the definition of scripts says, for each machine that is stood for (`specs/Standing.antt`).
//! Stands on `mz_script` for lines and texts, on `mz_core` for what a core is, and on `mz_shell`, whose carrier it is.
#![tactic(auto)]

mod texts;
mod world;

pub use world::World;
