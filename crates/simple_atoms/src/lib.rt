//! Comparisons as linear forms: their values in states, and what actions gain for them.
#![tactic(auto)]

mod atoms;
mod combination;
mod forms;
pub mod laws;
mod linear;
mod operations;

pub use atoms::{gain, gain_of, repetitions, value_in};
pub use forms::linear_form;
pub use linear::{FAR, Linear};
