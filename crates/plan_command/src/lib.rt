//! The command `plan`: the search of the pair that two texts spell.
#![tactic(auto)]

mod texts;

pub use texts::search;
