//! Rows of words that threads share without a lock: a row is written by one seat alone, opened once, and stays.
#![tactic(auto)]

mod entries;
mod rows;
mod steps;
mod view;

pub use entries::Entries;
pub use rows::WordRows;
pub use view::{Line, Load, RowSeat, View};
