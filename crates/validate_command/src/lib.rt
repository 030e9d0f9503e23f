//! The command `validate`: the verdict on a plan.
#![tactic(auto)]

mod answers;
mod validation;
mod verdicts;

pub use answers::answer;
