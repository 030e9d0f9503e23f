//! A growing list of boxes, with hulls of groups of them, by which the first box that contains a state is found.
#![tactic(auto)]

mod boxes;
mod hull;

pub use boxes::KeptBoxes;
