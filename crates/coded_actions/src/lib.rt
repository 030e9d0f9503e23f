//! Ground actions whose facts and fluents are named by codes of atoms, and their meaning as the actions of a ground task.
#![tactic(auto)]

mod coded;

pub use coded::{CodedAction, CodedChange, CodedCond, CodedExpr};
