//! Dead boxes that search threads share without a lock.
#![tactic(auto)]

mod find;
mod publish;
mod read;
mod shape;
mod store;

pub use store::{DeadRows, Placed};
pub use word_rows::RowSeat;
