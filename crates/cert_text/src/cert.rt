//! Certificates that no plan exists.

use box_model::StateBox;
use ground_task::State;
use num_ends::List;

/// A certificate that no plan of a task exists: dead boxes of the task, and states of the task in which the goal doesn't
/// hold. Each action leads from a listed state to a listed one or into a box, and the initial state is listed or in a
/// box.
#[derive(Debug, Drop)]
pub struct Cert {
    pub boxes: List<StateBox>,
    pub states: List<State>,
}

/// How the lines of boxes are written in a certificate.
#[derive(Clone, Copy, Debug)]
pub enum Version {
    /// With each fact and each fluent.
    Full,
    /// Without those of which a line tells nothing.
    Short,
}
