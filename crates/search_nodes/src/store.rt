//! The nodes by their states, with room for the list of them.

ghost use Rattle.std.specs.Prelude.{◌≡◌, ◌≢◌, ◌<◌, ◌≤◌, ◌+◌, ◌++◌, [], ◌∷◌, Some, map, length, take, slice_get, IfSome, IfNone, OnOk, OnErr, All, vec_len, vec_capacity};
ghost use Rattle.ground_task.specs.States.{StateValue};
ghost use Rattle.indexmap.specs.IndexMap.{set_value_at};
ghost use Rattle.search_nodes.specs.Tables.{node_of};
ghost use Rattle.search_nodes.specs.declared.nodes.Rest.{Rest};

use crate::nodes::Rest;
use ground_task::State;
use node_table::NodeTable;
use num_ends::NoMemory;
use search_runs::Node;
use std::alloc::Global;
use std::marker::Model;

/// The nodes by their states. The list of them can be made without memory.
#[derive(Drop)]
pub(crate) struct NodeStore {
    table: NodeTable<Rest>,
    room: Vec<Node<State>>,
}

impl Model for NodeStore {
    ghost use Rattle.std.specs.Prelude.{List, length, vec_len, vec_capacity};
    ghost use Rattle.ground_task.specs.States.{StateValue};
    ghost use Rattle.search_nodes.specs.declared.nodes.Rest.{Rest};
    ghost use Rattle.search_nodes.specs.Rooms.{HasRoom};

    ghost Value = { List (StateValue × Rest) };

    ghost view = { λ s. s.table };

    ghost invariant = { λ s. HasRoom (length s.table) s.room.items (vec_len s.room) (vec_capacity s.room) };
}

// adds an item, for which there is room
fn add<T: Drop>(items: &mut Vec<T>, item: T)
    requires room { vec_len items.old < vec_capacity items.old }
    ensures items { items.new.items ≡ items.old.items ++ item ∷ [] }
    ensures len { vec_len items.new ≡ vec_len items.old + 1 }
    ensures capacity { vec_capacity items.old ≤ vec_capacity items.new }
{
    let _added = items.push(item);
}

// makes room for an item more than so many
fn make_room(room: &mut Vec<Node<State>>, count: u32) -> Result<(), NoMemory>
    ensures items { room.new.items ≡ room.old.items }
    ensures len { vec_len room.new ≡ vec_len room.old }
    ensures capacity { vec_capacity room.old ≤ vec_capacity room.new }
    ensures ok { OnOk result (vec_len room.new + (count + 1) ≤ vec_capacity room.new) }
{
    room.reserve(count as usize + 1)?;
    Ok(())
}

// moves the nodes into a list that has room for them
fn fill(table: NodeTable<Rest>, room: Vec<Node<State>>) -> Vec<Node<State>>
    requires empty { room.items ≡ [] }
    requires none { vec_len room ≡ 0 }
    requires room { length table ≤ vec_capacity room }
    ensures { result.items ≡ map node_of table }
{
    let mut nodes = room;
    'each: for (state, rest) in table {
        add(
            &mut nodes,
            Node {
                state,
                parent: rest.parent,
                via: rest.via,
                status: rest.status,
            },
        );
    }
    nodes
}

impl NodeStore {
    /// No node yet, which takes no memory.
    pub(crate) fn new(alloc: Global) -> NodeStore
        ensures { result ≡ [] }
    {
        NodeStore {
            table: NodeTable::new(alloc),
            room: Vec::new(alloc),
        }
    }

    /// The number of nodes.
    pub(crate) fn len(&self) -> u32
        ensures len { result ≡ length self.now }
        ensures few { length self.now ≤ 1000000000 }
    {
        self.table.len()
    }

    /// The number of the node that has this state.
    pub(crate) fn find(&self, state: &State) -> Option<u32>
        ensures found { IfSome result (λ n. (x : Rest) × (slice_get self.now n ≡ Some (state.now, x))) }
        ensures absent { IfNone result (All (λ node. node.0 ≢ state.now) self.now) }
    {
        self.table.find(state)
    }

    /// A node but for its state.
    pub(crate) fn payload(&self, node: u32) -> Rest
        requires known { node < length self.now }
        ensures { (s : StateValue) × (slice_get self.now node ≡ Some (s, result)) }
    {
        self.table.payload(node)
    }

    /// The state of a node.
    pub(crate) fn state(&self, node: u32) -> &State
        requires known { node < length self.now }
        ensures { (x : Rest) × (slice_get self.now node ≡ Some (result.now, x)) }
    {
        self.table.state(node)
    }

    /// Adds a node at the end. Without memory nothing changes.
    pub(crate) fn push(&mut self, state: State, rest: Rest) -> Result<(), NoMemory>
        requires absent { All (λ node. node.0 ≢ state) self.old }
        requires room { length self.old < 1000000000 }
        ensures ok { OnOk result (self.new ≡ self.old ++ (state, rest) ∷ []) }
        ensures err { OnErr result (self.new ≡ self.old) }
    {
        make_room(&mut self.room, self.table.len())?;
        self.table.push(state, rest)
    }

    /// Gives a node another parent, action and status.
    pub(crate) fn set(&mut self, node: u32, rest: Rest)
        requires known { node < length self.old }
        ensures { self.new ≡ set_value_at self.old node rest }
    {
        self.table.set(node, rest);
    }

    /// Keeps the first nodes, so many, and drops the others.
    pub(crate) fn cut(&mut self, len: u32)
        ensures { self.new ≡ take len self.old }
    {
        self.table.cut(len);
    }

    /// The list of the nodes. This takes no memory.
    pub(crate) fn into_nodes(self) -> Vec<Node<State>>
        ensures { result.items ≡ map node_of self }
    {
        let NodeStore { table, room } = self;
        fill(table, room)
    }
}
