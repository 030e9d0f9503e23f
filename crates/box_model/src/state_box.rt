//! A box of states.

use num_ends::{Interval, List};

/// The truth values that a fact may have in a box.
#[derive(Clone, Copy, Debug, PartialEq, Eq)]
pub enum May {
    True,
    False,
    /// Both.
    Any,
}

/// The states whose facts and fluents lie in these parts, one per fact and one per fluent of a task.
#[derive(Debug, Drop)]
pub struct StateBox {
    pub facts: List<May>,
    pub fluents: List<Interval>,
}
