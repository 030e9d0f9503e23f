//! The bindings of an action's parameters to objects that static literals leave.
#![tactic(auto)]

mod bindings;
mod candidates;
mod checks;
mod levels;
mod resolve;
mod rows;

pub use bindings::{BindFault, bind, bind_rows};
pub use rows::Rows;
