//! What the trees of a text say, word by word and tree by tree, and the first fault of a text.
#![tactic(auto)]

pub mod faults;
pub mod forms;
mod laws;
pub mod leaves;
pub mod names;
pub mod notes;
pub mod words;

pub use laws::first_fault_is_first;
