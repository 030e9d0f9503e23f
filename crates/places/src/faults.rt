//! Why a task has no decimal places.

/// The first reason why no value of a task could be kept without rounding.
#[derive(Clone, Copy, Debug, PartialEq, Eq)]
pub enum PlacesFault {
    /// This fluent needs more than 9 places.
    Fluent(u32),
    /// A side of a comparison in the precondition of this action has more than 18 places.
    Action(u32),
    /// A side of a comparison in the goal has more than 18 places.
    Goal,
    /// The first value of this fluent leaves the range at the fluent's places.
    Range(u32),
    NoMemory,
}
