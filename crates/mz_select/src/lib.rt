//! The parts of one select resolved: the columns that it sees, its condition, its equalities, its keys and its items.
//! Promises that each part is that of the definition (`specs/Columns.antt`, `specs/Conditions.antt` and `specs/Listings.antt` of
//! `mz_resolution`), or its first refusal.
//! Stands on `mz_resolution` for the definition, on `mz_refusal`, `mz_plan` and `mz_statement` for the types.
#![tactic(auto)]

mod columns;
mod conditions;
mod faults;
mod listings;

pub use columns::{SeenColumn, Sight};
pub use conditions::{condition, equalities, same_type, type_of};
pub use faults::{
    MOST_COLUMNS, are_few, too_many_columns, unknown_column, unknown_name, wrong_column,
    wrong_name, wrong_part,
};
pub use listings::{keys_of, listing};
