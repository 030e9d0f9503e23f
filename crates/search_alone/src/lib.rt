//! A search of a task on one thread.
#![tactic(auto)]

mod alone;
mod task_viewer;

pub use alone::solve_alone;
pub use task_viewer::TaskViewer;
