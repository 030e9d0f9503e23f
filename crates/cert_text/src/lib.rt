//! The lines of boxes and states, and certificates.
#![tactic(auto)]

mod cert;
pub mod laws;
mod lines;
mod states;

pub use cert::{Cert, Version};
pub use lines::{write_box, write_box_short};
pub use states::write_state;
