//! Expressions, conditions and the goal with their constants folded, under bindings of parameters to objects.
#![tactic(auto)]

mod atoms;
mod comparisons;
mod conditions;
mod copies;
mod expressions;
mod faults;
mod folds;
mod goals;
mod joints;
mod operands;
mod settled;
mod texts;
mod unset;

pub use faults::FoldError;
pub use folds::{fold_condition, fold_expression};
pub use goals::fold_goal;
pub use operands::{CodedOperand, difference, operate, product, quotient, sum};
pub use settled::CodedSettled;
pub use texts::written_text_of;
