//! The nodes of a search.

ghost use Rattle.std.specs.Prelude.{◌≡◌, ◌<◌, ◌≤◌, ◌≢◌, ◌++◌, [], ◌∷◌, None, Some, All, length, slice_get, take, IfSome, IfNone, OnOk, OnErr};
ghost use Rattle.search_runs.specs.Answers.{count, first_where, is_goal, is_taken};
ghost use Rattle.search_runs.specs.Nodes.{nothing, with_status};
ghost use Rattle.search_runs.specs.declared.nodes.Node.{Node};
ghost use Rattle.ground_task.specs.States.{StateValue};
ghost use Rattle.box_model.specs.Boxes.{Contains};
ghost use Rattle.search_runs.specs.KeptBoxes.{IsFirstIn, IsInNone};
ghost use Rattle.search_runs.specs.Spaces.{IsAt};
ghost use Rattle.search_nodes.specs.Growth.{FitsState};
ghost use Rattle.search_nodes.specs.Tables.{IsNew, WithNodes};

use crate::store::NodeStore;
use explored::{Explored, Most};
use ground_task::{State, Task};
use num_ends::NoMemory;
use open_list::OpenList;
use search_runs::{Full, Site, Status};
use std::alloc::Global;
use std::marker::Model;

/// A node but for its state.
#[derive(Clone, Copy, Debug)]
pub struct Rest {
    pub parent: u32,
    pub via: u32,
    pub status: Status,
}

/// The nodes of a search of a task, its frontier, and what it keeps beside them.
#[derive(Drop)]
pub struct SearchNodes {
    pub(crate) task: Task,
    pub(crate) most: Most,
    pub(crate) table: NodeStore,
    pub(crate) frontier: OpenList,
    pub(crate) explored: Explored,
    pub(crate) goal: Option<u32>,
    pub(crate) taken: u32,
}

impl Model for SearchNodes {
    ghost use Rattle.ground_task.specs.contracts.raw.GCond as cond;
    ghost use Rattle.ground_task.specs.contracts.raw.GExpr as expr;
    ghost use Rattle.std.specs.Prelude.{map};
    ghost use Rattle.std.specs.Coded.{codes};
    ghost use Rattle.search_nodes.specs.Tables.{Table, IsTable, node_of};

    ghost Value = { Table };

    ghost coded = { Prim.hlevel (codes, cond.the_row.coded, expr.the_row.coded) };

    ghost view = { λ s. record { task = s.task; most = s.most; nodes = map node_of s.table; boxes = s.explored.boxes; over = s.explored.over; full = s.explored.full } };

    ghost invariant = { λ s. IsTable s.task s.most s.table s.explored s.frontier s.goal s.taken };
}

impl SearchNodes {
    /// No node yet, which takes no memory.
    pub fn new(alloc: Global, task: Task, most: Most) -> SearchNodes
        requires states { most.states ≤ 1000000000 }
        requires boxes { most.boxes ≤ 1000000000 }
        ensures { result ≡ record { task = task; most = most; nodes = []; boxes = []; over = None; full = None } }
    {
        SearchNodes {
            task,
            most,
            table: NodeStore::new(alloc),
            frontier: OpenList::new(alloc),
            explored: Explored::new(alloc),
            goal: None,
            taken: 0,
        }
    }

    /// The number of nodes.
    pub fn len(&self) -> u32
        ensures { result ≡ length self.now.nodes }
    {
        self.table.len()
    }

    /// The first node in whose state the goal holds.
    pub fn goal(&self) -> Option<u32>
        ensures { result ≡ first_where is_goal self.now.nodes }
    {
        self.goal
    }

    /// The number of nodes that are taken.
    pub fn taken(&self) -> u32
        ensures { result ≡ count is_taken self.now.nodes }
    {
        self.taken
    }

    /// The task.
    pub fn task(&self) -> &Task
        ensures { result.now ≡ self.now.task }
    {
        &self.task
    }

    /// The first site at which a number left its range, with its node.
    pub fn over(&self) -> Option<(u32, Site)>
        ensures { result ≡ self.now.over }
    {
        self.explored.over()
    }

    /// The first thing for which there was no room.
    pub fn full(&self) -> Option<Full>
        ensures { result ≡ self.now.full }
    {
        self.explored.full()
    }

    /// The state of a node.
    pub fn state(&self, node: u32) -> &State
        requires known { node < length self.now.nodes }
        ensures { (x : Node StateValue) × (slice_get self.now.nodes node ≡ Some x) × (x.state ≡ result.now) }
    {
        self.table.state(node)
    }
    /// The node that has this state.
    pub fn knows(&self, state: &State) -> Option<u32>
        ensures found { IfSome result (λ n. (x : Node StateValue) × IsAt self.now.nodes n x × (x.state ≡ state.now)) }
        ensures absent { IfNone result (IsNew self.now.nodes state.now) }
    {
        self.table.find(state)
    }

    /// The number of the first kept box that contains the state.
    pub fn kept(&self, state: &State) -> Option<u32>
        requires of_task { FitsState self.now.task state.now }
        ensures found { IfSome result (λ b. IsFirstIn (Contains self.now.task.places) self.now.boxes state.now b) }
        ensures absent { IfNone result (IsInNone (Contains self.now.task.places) self.now.boxes state.now) }
    {
        self.explored.first(&self.task, state)
    }
}
