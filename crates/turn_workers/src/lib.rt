//! The turns of a worker at a lock: it takes a node, gives what came of it, or leaves the work.
#![tactic(auto)]

mod shared;
mod turns;
mod work;

pub use shared::Shared;
pub use turns::{give_once, starve_once, take_once};
pub use work::{Job, Taken};
