//! How many decimal places the fluents of a ground task need.
#![tactic(auto)]

mod counts;
mod faults;
mod inferred;
mod needs;
mod sides;

pub use faults::PlacesFault;
pub use inferred::infer;
