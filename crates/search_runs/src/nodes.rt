//! The nodes of a search.

/// Where a node stands.
#[derive(Clone, Copy, Debug, PartialEq, Eq)]
pub enum Status {
    /// In the frontier, with its estimate.
    Waiting(u32),
    /// Being expanded by the worker of this number.
    Taken(u32),
    /// Expanded.
    Closed,
    /// The goal holds in its state.
    Goal,
    /// Its state lies in the kept dead box of this number.
    Dead(u32),
}

/// A state with the way to it: the ground action `via` leads to it from the state of the node `parent`.
///
/// Node 0 is the initial state; its parent and its action are 0.
#[derive(Debug, Drop)]
pub struct Node<S> {
    pub state: S,
    pub parent: u32,
    pub via: u32,
    pub status: Status,
}
