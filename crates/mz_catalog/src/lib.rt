//! The catalog: the tables, views and indexes that there are, in order of creation.
//! Promises that names are distinct, that numbers go up and none is used again, and that nothing is removed
//! on which something else depends (`specs/CatalogState.antt`, `specs/Dependents.antt`).
//! Stands on `mz_plan` for items and scopes, and on the kit's `indexmap`.
#![tactic(auto)]

mod catalog;
mod dependents;
mod entries;
mod fault;
mod oldest;

pub use catalog::Catalog;
pub use entries::MOST_ITEMS;
pub use fault::CatalogFault;
