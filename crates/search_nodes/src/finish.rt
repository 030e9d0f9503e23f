//! The end of a search.

ghost use Rattle.std.specs.Prelude.{◌≡◌};

use crate::nodes::SearchNodes;
use box_model::StateBox;
use ground_task::{State, Task};
use num_ends::List;
use search_runs::{Full, Node, Site};

/// What a search has found.
#[derive(Drop)]
pub struct Finished {
    pub task: Task,
    /// The nodes in the order in which they came.
    pub nodes: List<Node<State>>,
    /// The dead boxes in the order in which they came.
    pub boxes: List<StateBox>,
    /// The first site at which a number left its range, with its node.
    pub over: Option<(u32, Site)>,
    /// The first thing for which there was no room.
    pub full: Option<Full>,
}

impl SearchNodes {
    /// Ends the search. This takes no memory.
    pub fn finish(self) -> Finished
        ensures task { result.task ≡ self.task }
        ensures nodes { result.nodes ≡ self.nodes }
        ensures boxes { result.boxes ≡ self.boxes }
        ensures over { result.over ≡ self.over }
        ensures full { result.full ≡ self.full }
    {
        let SearchNodes {
            task,
            table,
            explored,
            ..
        } = self;
        let over = explored.over();
        let full = explored.full();
        Finished {
            task,
            nodes: List::from_vec(table.into_nodes()),
            boxes: explored.into_boxes(),
            over,
            full,
        }
    }
}
