//! What is found out of a state and of a step.

use box_model::StateBox;
use explored::Seen;
use ground_task::State;
use search_runs::Status;

/// What is found out of a state that is no node's yet.
#[derive(Debug, Drop)]
pub enum View {
    /// The goal holds.
    Goal,
    /// The box is dead and contains the state.
    Dead(StateBox),
    /// The state is live, the goal doesn't hold, and this is the estimate.
    Live(u32),
    /// The state is live, a number leaves its range at the goal, and this is the estimate.
    LiveOver(u32),
}

/// What a ground action does in a state.
#[derive(Debug, Drop)]
pub enum Outcome {
    /// It doesn't apply.
    Blocked,
    /// A number leaves its range.
    Over,
    /// It leads to the state of the node of this number.
    Known(u32),
    /// It leads to this state, which lies in a kept box.
    InKept(State),
    /// It leads to this state, of which this is found out.
    Next(State, View),
}
