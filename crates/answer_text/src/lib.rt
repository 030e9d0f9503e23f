//! The texts of the answers of searches, written piece by piece.
#![tactic(auto)]

mod answers;
mod faults;
pub mod laws;
mod lines;
mod paths;
mod sending;
mod states;
mod status;
mod summary;
mod upgrade;

pub use answers::{send_answer, write_answer};
pub use faults::{SendFault, Unsent};
pub use status::status_of;
pub use summary::{send_summary, write_summary};
pub use upgrade::{send_upgrade, write_upgrade};
