//! The expressions and conditions of a pair with their names looked up once, and operations on constants.
#![tactic(auto)]

pub mod arithmetic;
mod expressions;
mod fixed;
mod patterns;
mod slots;

pub use expressions::ExprSlots;
pub use fixed::{at_polarity, first_value};
pub use patterns::{CondPattern, ExprPattern};
pub use slots::CondSlots;
