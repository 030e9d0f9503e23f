//! Nodes that workers take.

/// A node to be expanded, and its state.
#[derive(Debug, Drop)]
pub struct Job<N> {
    pub node: u32,
    pub state: N,
}

/// What a worker is answered that asks for a node.
#[derive(Debug, Drop)]
pub enum Taken<N> {
    /// The node is the worker's until it gives what came of it.
    Job(Job<N>),
    /// No node may be taken now. So many are with workers.
    NotYet(u32),
    /// There is an answer: no node is to be taken any more.
    Done,
}
