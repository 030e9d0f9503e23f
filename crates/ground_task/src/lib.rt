//! Ground tasks of a numeric planner: their data, their states and the meaning of a step.
#![tactic(auto)]

mod answers;
mod changes;
mod copies;
mod faults;
mod first;
pub mod laws;
mod raw;
mod row;
mod state;
mod steps;
mod task;
mod truth;
mod values;

pub use answers::{Advanced, Applied, Truth};
pub use faults::TaskFault;
pub use raw::{Change, GCond, GExpr, Ground, RawTask, Rel};
pub use state::State;
pub use steps::StateBuffer;
pub use task::Task;
