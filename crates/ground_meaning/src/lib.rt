//! What grounding gives for a checked pair, and why the ground task stands for the pair: definitions and laws.
#![tactic(auto)]

mod faults;
mod initial;
mod laws;
mod solvability;
mod uniqueness;

pub use faults::GroundFault;
pub use initial::{initial_states_stand, tasks_are_valid};
pub use laws::{goals_agree, plans_stand, steps_stand};
pub use solvability::{
    ground_tasks_stand, plans_are_task_plans, same_solvability, steps_come_back,
    task_plans_are_plans,
};
pub use uniqueness::{one_answer, one_refusal, one_task, some_answer, task_or_refusal};
