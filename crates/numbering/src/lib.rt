//! Which facts and fluents a ground task has, and its actions by their numbers.
#![tactic(auto)]

mod facts;
mod fluents;
mod numbers;
mod reads;
mod rising;
mod spread;

pub use facts::fact_codes;
pub use fluents::fluent_codes;
pub use numbers::{Codes, find, numbered_actions, numbered_condition, rank};
