//! Dataflows: plans as nodes for a stack, whose rows are kept up to date as updates of their leaves come.
//! Promises that at each time the output has the plan's rows over what was offered (`specs/Stands.antt`).
//! Stands on `mz_ops` and `mz_reduce` for operators, on `mz_arrange` for the output, on `mz_plan` for plans; replicas stand on it.
#![tactic(auto)]

mod adding;
mod building;
mod dataflow;
mod flowing;
pub mod laws;
mod node;
mod offers;
mod op;
mod operators;
mod queues;
mod running;
mod spine;

pub use building::build;
pub use dataflow::Dataflow;
pub use node::Node;
pub use op::Op;
pub use running::run;
