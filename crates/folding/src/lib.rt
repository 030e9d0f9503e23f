//! The actions of a domain under bindings: each is left out, folded, or refuses the pair.
#![tactic(auto)]

mod changes;
mod effects;
mod folder;
mod growth;
mod sound;

pub use folder::Folder;
