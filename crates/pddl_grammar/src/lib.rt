//! The grammar of domains and problems: which data a text spells, and what its trees have to do with it.
#![tactic(auto)]

mod laws;

pub use laws::{domains_are_spelled, problems_are_spelled};
