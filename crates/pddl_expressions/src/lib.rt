//! Trees read as atoms, expressions and conditions.
#![tactic(auto)]

pub mod atoms;
mod comparisons;
pub mod conditions;
pub mod expressions;
pub mod fine;
pub mod found;
