//! Values of constants, truth values and faults of terms under bindings of parameters to objects: what a fold of them
//! tells, without building what remains. Nothing is allocated.
#![tactic(auto)]

mod constants;
mod expressions;
mod faults;
mod seen;
mod verdicts;

pub use faults::TermFault;
pub use seen::{condition_verdict, expression_fault, expression_value};
