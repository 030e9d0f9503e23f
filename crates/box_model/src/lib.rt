//! Boxes of states: an interval per fluent and the possible truth values per fact.
#![tactic(auto)]

mod around;
mod caps;
mod demands;
mod hold;
mod laws;
mod reads;
mod state_box;
mod states;

pub use caps::{Side, cap_of, cap_under};
pub use laws::{
    dead_boxes_have_no_plan, held_conditions_may_hold, least_boxes_in_dead_ones_are_dead,
    least_boxes_lie_within_each_other, plans_stay_in_closed_boxes, steps_stay_in_closed_boxes,
    wider_boxes_hold_more,
};
pub use state_box::{May, StateBox};
