//! Whether a certificate shows that no plan exists.
#![tactic(auto)]

mod answers;
mod boxes;
mod index;
pub mod laws;
mod lines;
mod set;
mod states;

pub use answers::{Checked, Reason, check};
