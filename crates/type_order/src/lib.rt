//! Which types of a domain are declared, which of them descends from which, and which are their own ancestors.
#![tactic(auto)]

mod cycles;
mod laws;
mod order;

pub use cycles::Cycles;
pub use laws::descent_is_tested;
pub use order::TypeOrder;
