//! The answers of the program: a status, and the text that goes with it.
#![tactic(auto)]

mod answers;

pub use answers::{Answer, refused};
