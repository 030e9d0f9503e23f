//! What an action and a condition answer in a state.

use crate::state::State;

/// What an action does in a state.
#[derive(Debug, Drop)]
pub enum Applied {
    /// Its precondition is false.
    Blocked,
    /// A number that is computed on the way leaves the range.
    Over,
    /// It leads to this state.
    Next(State),
}

/// Whether a condition holds in a state.
#[derive(Clone, Copy, Debug, PartialEq, Eq)]
pub enum Truth {
    /// It holds.
    Yes,
    /// It doesn't hold.
    No,
    /// A number that is computed on the way leaves the range.
    Over,
}

/// What an action did to a buffer: the answers of `Applied` without the state.
#[derive(Clone, Copy, Debug, PartialEq, Eq)]
pub enum Advanced {
    /// Its precondition is false.
    Blocked,
    /// A number that is computed on the way leaves the range.
    Over,
    /// The buffer holds the state that it leads to.
    Next,
}
