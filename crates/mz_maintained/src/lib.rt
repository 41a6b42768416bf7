//! A query's plan whose rows are maintained: a dataflow with the rows that its tables have, so that each change is looked at first.
//! Promises that no run passes the bound, and that what a change puts out is the difference of the plan's rows (`specs/Maintained.antt`).
//! Stands on `mz_dataflow` for the dataflow and on `mz_bag` for the rows of tables; `statements` stands on it.
#![tactic(auto)]

mod fault;
mod maintained;
mod masses;
mod tables;

pub use fault::ChangeFault;
pub use maintained::Maintained;
