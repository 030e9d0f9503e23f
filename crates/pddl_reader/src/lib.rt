//! Texts of domains and problems of PDDL read as data, or their first fault.
#![tactic(auto)]

mod answers;
mod domains;
mod faults;
mod frames;
mod goals;
mod initial;
mod laws;
mod problems;
mod texts;

pub use faults::ReadFault;
pub use laws::{domains_are_answered, problems_are_answered};
pub use texts::{read_domain, read_problem};
