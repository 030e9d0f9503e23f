//! Plan files: the steps that a text spells, and the line of a step.
#![tactic(auto)]

mod cuts;
mod laws;
mod lines;
mod marks;
mod names;
mod read;
mod step;
mod write;

pub use laws::{plan_has_one_reading, written_steps_are_read};
pub use read::read_plan;
pub use step::{PlanFault, Step};
pub use write::write_step;
