//! What no action changes, and what is given at first, found by numbers.
#![tactic(auto)]

mod changed;
mod codes;
mod keys;
mod statics;
mod tables;

pub use codes::code_of;
pub use statics::{Statics, find_statics};
