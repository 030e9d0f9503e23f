//! The meaning of a checked domain and problem: worlds, the steps of actions and the goal, exact or over the range.
#![tactic(auto)]

mod agreement;
mod answers;
mod conditions;
mod effects;
mod goals;
mod laws;
mod literals;
mod starting;
mod steps;
mod texts;
mod values;
mod world;
mod writes;

pub use agreement::ranged_steps_agree;
pub use answers::{Advanced, Holds, Stepped};
pub use goals::goal;
pub use laws::{divisors_are_inverted, ranged_goals_agree};
pub use starting::start;
pub use steps::step;
pub use world::World;
