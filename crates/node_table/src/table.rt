//! A table of nodes by their states.

ghost use Rattle.std.specs.Prelude.{◌≡◌, ◌≢◌, ◌<◌, ◌≤◌, ◌++◌, [], ◌∷◌, Some, length, take, slice_get, IfSome, IfNone, OnOk, OnErr, All};
ghost use Rattle.ground_task.specs.States.{StateValue};
ghost use Rattle.indexmap.specs.IndexMap.{set_value_at};
ghost use Rattle.node_table.specs.Tables.{AreApart};

use ground_task::State;
use indexmap::IndexMap;
use indexmap::map::IntoIter;
use num_ends::NoMemory;
use std::alloc::Global;
use std::marker::Model;

/// States in the order in which they came, no two of them equal, each with the data of its node.
///
/// Contracts see the table as the list of these pairs. It has at most 1,000,000,000.
#[derive(Drop)]
pub struct NodeTable<P> {
    table: IndexMap<State, P>,
}

impl<P> Model for NodeTable<P> {
    ghost use Rattle.std.specs.Prelude.{List, length, ◌≤◌};
    ghost use Rattle.ground_task.specs.States.{StateValue};

    ghost Value = { List (StateValue × P) };

    ghost view = { λ nodes. nodes.table.entries };

    ghost invariant = { λ nodes. length nodes.table.entries ≤ 1000000000 };
}

impl<P: Copy + Drop> NodeTable<P> {
    /// The empty table, which takes no memory.
    pub fn new(alloc: Global) -> NodeTable<P>
        ensures { result ≡ [] }
    {
        NodeTable {
            table: IndexMap::new(alloc),
        }
    }

    /// The number of nodes.
    pub fn len(&self) -> u32
        ensures len { result ≡ length self.now }
        ensures few { length self.now ≤ 1000000000 }
        ensures apart { AreApart self.now }
    {
        self.table.len() as u32
    }

    /// The number of the node that has this state.
    pub fn find(&self, state: &State) -> Option<u32>
        ensures found { IfSome result (λ n. (x : P) × (slice_get self.now n ≡ Some (state.now, x))) }
        ensures absent { IfNone result (All (λ node. node.0 ≢ state.now) self.now) }
    {
        match self.table.get_index_of(state) {
            Some(index) => Some(index as u32),
            None => None,
        }
    }

    /// The data of a node.
    pub fn payload(&self, node: u32) -> P
        requires known { node < length self.now }
        ensures { (s : StateValue) × (slice_get self.now node ≡ Some (s, result)) }
    {
        self.table[node as usize]
    }

    /// The state of a node.
    pub fn state(&self, node: u32) -> &State
        requires known { node < length self.now }
        ensures { (x : P) × (slice_get self.now node ≡ Some (result.now, x)) }
    {
        let (state, _) = self.table.get_index(node as usize).unwrap();
        state
    }

    /// Adds a node at the end.
    pub fn push(&mut self, state: State, payload: P) -> Result<(), NoMemory>
        requires absent { All (λ node. node.0 ≢ state) self.old }
        requires room { length self.old < 1000000000 }
        ensures ok { OnOk result (self.new ≡ self.old ++ (state, payload) ∷ []) }
        ensures err { OnErr result (self.new ≡ self.old) }
    {
        self.table.insert(state, payload)?;
        Ok(())
    }

    /// Gives a node other data.
    pub fn set(&mut self, node: u32, payload: P)
        requires known { node < length self.old }
        ensures { self.new ≡ set_value_at self.old node payload }
    {
        self.table[node as usize] = payload;
    }

    /// Keeps the first nodes, so many, and drops the others.
    pub fn cut(&mut self, len: u32)
        ensures { self.new ≡ take len self.old }
    {
        self.table.truncate(len as usize);
    }
}

impl<P: Copy + Drop> IntoIterator for NodeTable<P> {
    type Item = (State, P);

    type IntoIter = IntoIter<State, P, Global>;

    ghost use Rattle.std.specs.Prelude.{◌≡◌};

    ghost into_iter_gives = { λ nodes rest. rest ≡ nodes };

    /// The nodes in their order, by value. This takes no memory.
    fn into_iter(self) -> IntoIter<State, P, Global> {
        self.table.into_iter()
    }
}
