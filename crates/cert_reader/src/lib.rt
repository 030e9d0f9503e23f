//! Certificates read from texts.
#![tactic(auto)]

mod cuts;
mod faults;
mod fits;
pub mod laws;
mod lines;
mod parts;
mod read;
mod values;

pub use faults::CertFault;
pub use read::read_cert;
