//! Sinces, policies and streams of replicas: the rules that both the log and the code below it go by, as definitions without code.
//! Promises what a since is (`specs/Since.antt`, `src/laws.rt`) and what a reduced list keeps (`specs/Streams.antt`, `src/stream_laws.rt`).
//! Stands on `mz_plan`, `mz_statement`, `mz_time` and `mz_value`; what keeps collections and streams stands on it.
#![tactic(auto)]

mod capability;
pub mod laws;
pub mod stream_laws;

pub use capability::{Collection, CollectionKind, Hold, Numbers, Settled};
