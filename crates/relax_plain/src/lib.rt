//! The least closed box above a state of a task.
//!
//! Each action carries a mark while it is still to be looked at. A marked action that may be applied widens the box by what
//! it demands, and marks the actions that read what has widened, perhaps itself. When no mark is left, the box is closed.
#![tactic(auto)]

mod marks;
mod readers;
mod relaxation;
mod widen;

pub use relaxation::least_box;
