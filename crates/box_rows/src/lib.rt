//! Rows of words that stand for boxes: the system of a task at a state, whose least closed row stands for the least closed
//! box.
#![tactic(auto)]

mod laws;
mod rule;

pub use laws::{
    least_rows_stand_for_least_boxes, rows_are_closed_where_their_boxes_are,
    rows_are_ordered_as_their_boxes, systems_are_monotone,
};
pub use rule::{Demand, Rule, Supporter};
