//! What a step and a goal answer.

use crate::world::World;

/// What an action does in a world.
#[derive(Debug, Drop)]
pub enum Stepped {
    /// It leads to this world.
    Next(World),
    /// A fluent that it reads is undefined, two of its effects are in conflict, or its precondition is false.
    Blocked,
    /// There is no action of this name, or its arguments don't fit.
    Illegal,
    /// A number that is computed on the way leaves the range.
    Over,
}

/// What an action did to a world in place: the answers of `Stepped` without the world.
#[derive(Clone, Copy, Debug, PartialEq, Eq)]
pub enum Advanced {
    /// The world is the next one.
    Next,
    /// A fluent that it reads is undefined, two of its effects are in conflict, or its precondition is false.
    Blocked,
    /// There is no action of this name, or its arguments don't fit.
    Illegal,
    /// A number that is computed on the way leaves the range.
    Over,
}

/// Whether a condition holds in a world.
#[derive(Clone, Copy, Debug, PartialEq, Eq)]
pub enum Holds {
    /// It holds.
    Yes,
    /// It doesn't hold.
    No,
    /// A number that is computed on the way leaves the range.
    Over,
}
