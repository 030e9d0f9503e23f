//! Names with numbers, and sets of names, found by hash; typed lists by the names in them.
#![tactic(auto)]

mod laws;
mod set;
mod table;
mod typed_lists;

pub use laws::numbers_are_first_places;
pub use set::NameSet;
pub use table::NameTable;
pub use typed_lists::{first_typed, names_of, typed_table};
