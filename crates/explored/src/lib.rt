//! What a search keeps beside its nodes, and the class of a state that is new to it.
#![tactic(auto)]

mod classes;
mod kept;

pub use classes::{Class, Most, Seen};
pub use kept::{Explored, Point};
