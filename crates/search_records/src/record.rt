//! What a search gives at its end.

use box_model::StateBox;
use ground_task::{State, Task};
use num_ends::List;
use search_runs::{Event, Full, Node, Site};

/// All that a search found out of its task.
#[derive(Drop)]
pub struct Record {
    /// The task.
    pub task: Task,
    /// The greatest number of nodes that were to be taken.
    pub limit: u32,
    /// The nodes, in the order in which they came.
    pub nodes: List<Node<State>>,
    /// The dead boxes that were kept, in the order in which they came.
    pub boxes: List<StateBox>,
    /// The first site at which a number left its range, with its node.
    pub over: Option<(u32, Site)>,
    /// The first thing for which there was no room.
    pub full: Option<Full>,
    /// The events, in the order in which they came.
    pub journal: List<Event>,
}
