//! How many supporters a task has.
#![tactic(auto)]

mod count;
mod marks;

pub use count::supporters;
