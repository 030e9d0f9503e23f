//! Lists of names with their types, declarations, and the sections of a text by their words.
#![tactic(auto)]

pub mod declarations;
pub mod functions;
pub mod gather;
mod groups;
mod keys;
pub mod kinds;
pub mod sections;
pub mod typed;
pub mod types;
