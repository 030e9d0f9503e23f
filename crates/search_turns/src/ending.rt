//! What a search knows, and its end.

ghost use Rattle.std.specs.Prelude.{◌≡◌, length, IfSome, IfNone};
ghost use Rattle.ground_task.specs.States.{StateValue};
ghost use Rattle.box_model.specs.Boxes.{Contains};
ghost use Rattle.search_runs.specs.KeptBoxes.{IsFirstIn, IsInNone};
ghost use Rattle.search_runs.specs.Spaces.{IsAt};
ghost use Rattle.search_runs.specs.declared.nodes.Node.{Node};
ghost use Rattle.search_nodes.specs.Growth.{FitsState};
ghost use Rattle.search_nodes.specs.Tables.{IsNew};

use crate::search::SearchTurns;
use ground_task::State;
use num_ends::List;
use search_nodes::Finished;
use search_runs::Event;

impl SearchTurns {
    /// The greatest number of expansions.
    pub fn limit(&self) -> u32
        ensures { result ≡ self.now.limit }
    {
        self.limit
    }

    /// The number of nodes.
    pub fn len(&self) -> u32
        ensures { result ≡ length self.now.table.nodes }
    {
        self.nodes.len()
    }

    /// The node that has this state.
    pub fn knows(&self, state: &State) -> Option<u32>
        ensures found { IfSome result (λ n. (x : Node StateValue) × IsAt self.now.table.nodes n x × (x.state ≡ state.now)) }
        ensures absent { IfNone result (IsNew self.now.table.nodes state.now) }
    {
        self.nodes.knows(state)
    }

    /// The number of the first kept box that contains the state.
    pub fn kept(&self, state: &State) -> Option<u32>
        requires of_task { FitsState self.now.table.task state.now }
        ensures found { IfSome result (λ b. IsFirstIn (Contains self.now.table.task.places) self.now.table.boxes state.now b) }
        ensures absent { IfNone result (IsInNone (Contains self.now.table.task.places) self.now.table.boxes state.now) }
    {
        self.nodes.kept(state)
    }

    /// Ends the search: what it found, and the events. This takes no memory.
    pub fn finish(self) -> (Finished, List<Event>)
        ensures task { result.0.task ≡ self.table.task }
        ensures nodes { result.0.nodes ≡ self.table.nodes }
        ensures boxes { result.0.boxes ≡ self.table.boxes }
        ensures over { result.0.over ≡ self.table.over }
        ensures full { result.0.full ≡ self.table.full }
        ensures journal { result.1 ≡ self.journal }
    {
        let SearchTurns {
            nodes,
            limit: _,
            workers: _,
            journal,
            takes: _,
            starved: _,
        } = self;
        (nodes.finish(), List::from_vec(journal))
    }
}
