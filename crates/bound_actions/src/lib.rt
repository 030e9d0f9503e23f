//! What an action reads, adds, deletes and assigns, under bindings of its parameters to objects.
#![tactic(auto)]

mod facts;
mod readiness;
mod reads;
mod scope;
mod texts;
mod unset;

pub use facts::Facts;
pub use readiness::Readiness;
pub use scope::Scope;
pub use texts::{Bound, action_text, atom_text};
pub use unset::AssignedFluents;
