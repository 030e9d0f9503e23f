//! The nodes of a search with its frontier and its kept boxes, and how they change.
#![tactic(auto)]

mod changes;
mod finish;
mod growth;
mod nodes;
mod parts;
mod store;
mod views;

pub use finish::Finished;
pub use nodes::{Rest, SearchNodes};
pub use views::{Outcome, View};
