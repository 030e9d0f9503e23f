//! The estimate of a search: how many actions a state is from the goal, where each subgoal is counted on its own.
#![tactic(auto)]

mod atoms;
mod conditions;
mod estimator;
pub mod laws;
mod leaves;
mod network;
mod rounds;
mod same;
mod unmet;

pub use estimator::{Estimator, estimate};
