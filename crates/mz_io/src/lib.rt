//! The outside of the program: where bytes come from and where they go.
//! Promises that a call fails only where its end's count of faults rose (`specs/Causes.antt`), and neither loses nor makes up a byte.
//! Stands on std and `thiserror`; whatever reads or writes stands on it.
#![tactic(auto)]

mod adapters;
mod calls;
mod memory;
mod sink;
mod source;
#[cfg(test)]
mod tests;

pub use adapters::{ReadSource, WriteSink};
pub use memory::{MemorySink, MemorySource};
pub use sink::{Sink, write_all};
pub use source::{Failed, Source};
