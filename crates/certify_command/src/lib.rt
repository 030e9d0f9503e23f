//! The command `certify`: whether a certificate shows that a pair has no plan.
#![tactic(auto)]

mod answers;
mod laws;
mod verdicts;

pub use answers::answer;
pub use laws::good_certificates_are_certified;
