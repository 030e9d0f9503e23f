//! The runs of a search over any task: nodes, events, answers, and the laws that hold after every list of events.
#![tactic(auto)]

mod answers;
mod events;
mod nodes;

pub use answers::{Answer, Full, Site};
pub use events::Event;
pub use nodes::{Node, Status};
