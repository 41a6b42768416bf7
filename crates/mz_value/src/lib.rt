//! Values, rows of values, names and texts, and lists.
//! Promises the order of values and of rows (`specs/Datum.antt`, `specs/Row.antt`) and what a name is (`specs/Name.antt`).
//! Stands on nothing; every crate that speaks of rows or names stands on it.
#![tactic(auto)]

mod datum;
mod list;
mod name;
mod row;
mod text;

pub use datum::Datum;
pub use list::{Listed, TryCopy, copied};
pub use name::{LONGEST_NAME, Name, is_name};
pub use row::{Row, Rows};
pub use text::Text;
