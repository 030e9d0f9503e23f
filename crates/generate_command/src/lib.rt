//! The command `generate`: the search of a task of any size.
#![tactic(auto)]

mod sizes;

pub use sizes::search;
