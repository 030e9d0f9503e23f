//! A lock around one value, whose journal is one history for all threads.
#![tactic(auto)]

pub mod laws;
mod plays;
mod seat;
mod told;
mod turn;
mod view;

pub use seat::TurnSeat;
pub use told::Told;
pub use turn::{Held, Turn};
