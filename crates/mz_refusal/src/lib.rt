//! Why a call is refused: the causes, each with its number and its text.
//! Promises the very bytes that a refusal is written as (`specs/Refusal.antt`).
//! Stands on `mz_value` for names and texts, and on `mz_time`.
#![tactic(auto)]

mod fault;
mod refusal;

pub use fault::CallFault;
pub use refusal::{Limited, Refusal};
