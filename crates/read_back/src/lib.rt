//! What is written is read back: the certificates that searches and upgrades write.
#![tactic(auto)]

pub mod laws;
