//! A certificate for the ground task of a pair, read from three texts.
#![tactic(auto)]

mod laws;
mod readings;

pub use laws::{reading_or_refusal, texts_have_one_reading};
pub use readings::{TaskCertificate, read_certificate};
