//! The command `relax`: whether the goal may hold in the least closed box that a task can reach.
#![tactic(auto)]

mod answers;
mod relaxation;

pub use answers::answer;
