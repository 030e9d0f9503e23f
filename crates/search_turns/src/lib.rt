//! A search by workers: each call is one event.
#![tactic(auto)]

mod answer;
mod ending;
mod search;
mod turns;

pub use search::SearchTurns;
pub use turns::Taken;
