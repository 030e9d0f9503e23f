//! States from which no plan leads on, the states that a search may reach, and certificates that no plan exists.
#![tactic(auto)]

pub mod laws;
