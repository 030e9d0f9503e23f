//! The refusals of pairs that have no ground task, with their places in the files.
#![tactic(auto)]

mod laws;
mod refusals;

pub use laws::limits_are_told;
pub use refusals::grounding_fault;
