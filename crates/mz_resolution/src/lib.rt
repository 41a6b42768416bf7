//! What a statement asks for in a scope: its names resolved and its types judged, or the first refusal.
//! Promises nothing by code: its definitions (`specs/`) say what resolution gives, and its types what names stand for.
//! Stands on `mz_plan` and `mz_statement`; the resolver and all crates that say what a statement asks for stand on it.
#![tactic(auto)]

mod relation;

pub use relation::{ListedItem, Listing, NamedRelation, Referred, Relation};
