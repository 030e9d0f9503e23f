//! The ground task of a checked pair.
#![tactic(auto)]

mod atoms;
mod codes;
mod decode;
mod grounding;
mod kept;
mod made;
mod placing;
mod texts;

pub use grounding::ground;
