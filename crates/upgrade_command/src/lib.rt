//! The command `upgrade`: a certificate in version 2.
#![tactic(auto)]

mod reading;

pub use reading::read;
