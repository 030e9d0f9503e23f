//! The top call: all that the program does, over the words, files and output that it is handed.
#![tactic(auto)]

mod answers;
mod commands;
mod ended;
mod outcomes;
mod run;
mod sending;

pub use ended::Ended;
pub use run::run_alone;
