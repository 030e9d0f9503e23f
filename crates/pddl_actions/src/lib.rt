//! Trees read as effects and as actions.
#![tactic(auto)]

mod actions;
mod clauses;
pub mod effects;
pub mod schemas;
