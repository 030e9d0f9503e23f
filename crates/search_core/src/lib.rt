//! A search of a task by workers, whose journal is a run: each call is one event.
#![tactic(auto)]

mod expand;
pub mod laws;
mod search;
mod viewer;

pub use search::Search;
pub use viewer::Viewer;
