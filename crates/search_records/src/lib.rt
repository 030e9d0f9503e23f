//! The records of searches: what a search gives at its end, which records may be given, and what their answers claim.
#![tactic(auto)]

mod answers;
pub mod laws;
mod record;

pub use record::Record;
