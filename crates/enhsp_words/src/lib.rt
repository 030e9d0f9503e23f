//! The words after the program's name, read as a job.
#![tactic(auto)]

mod command_line;
mod job;
mod options;
mod read;
mod values;

pub use job::{Command, Job, WordsFault};
pub use read::read_words;
