//! The ground task of the pair that two texts spell, or why there is none.
#![tactic(auto)]

mod laws;
mod reading;

pub use laws::{
    no_task_no_plan, plans_are_task_plans, task_or_refusal, task_plans_are_plans, tasks_stand,
    texts_have_an_answer, texts_have_one_refusal, texts_have_one_task,
};
pub use reading::{read_task, read_whole_task};
