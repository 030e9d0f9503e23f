//! Executes a plan: the goal is reached, or the first step that fails.
#![tactic(auto)]

mod execution;
mod laws;
mod verdicts;

pub use execution::validate;
pub use laws::{plan_has_one_verdict, plans_are_valid_or_over, valid_plans_are_plans};
pub use verdicts::Verdict;
