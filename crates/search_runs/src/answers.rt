//! How a search ends.

/// What leaves the range of numbers at a state.
#[derive(Clone, Copy, Debug, PartialEq, Eq)]
pub enum Site {
    /// The step by the ground action of this number.
    Action(u32),
    /// The goal.
    Goal,
}

/// What there is no room for.
#[derive(Clone, Copy, Debug, PartialEq, Eq)]
pub enum Full {
    States,
    Boxes,
}

/// How a search ends.
#[derive(Clone, Copy, Debug, PartialEq, Eq)]
pub enum Answer {
    /// The goal holds in the state of this node.
    Plan(u32),
    /// No plan exists.
    Exhausted,
    /// A value leaves the range of numbers at the state of this node.
    Over(u32, Site),
    /// The limit of expansions is reached.
    Expansions,
    /// There is no room for a further state or box.
    Filled(Full),
    /// A worker found no memory.
    Starved,
}
