//! The nodes of a search, found by their states.
#![tactic(auto)]

mod table;

pub use table::NodeTable;
