//! What is said of a plan.

/// What is said of a plan. The number of a step counts from 1, and is that of the first step that doesn't lead to a next world.
#[derive(Clone, Copy, Debug, PartialEq, Eq)]
pub enum Verdict {
    /// Each step leads to a next world, and the goal holds in the last one.
    Valid,
    /// A fluent that the step reads is undefined, two of its effects are in conflict, or its precondition is false.
    Blocked(u32),
    /// There is no action of the step's name, or its arguments don't fit.
    Illegal(u32),
    /// A number that the step computes leaves the range.
    Over(u32),
    /// Each step leads to a next world, and a number that the goal computes in the last one leaves the range.
    OverGoal,
    /// Each step leads to a next world, and the goal doesn't hold in the last one.
    NotGoal,
}
