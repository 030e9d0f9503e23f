//! A monotone system on words that threads share: each word only moves one way, until no rule asks for more.
#![tactic(auto)]

mod evaluate;
pub mod laws;
mod room;
mod seat;
mod steps;
mod sweep;
mod swept;
mod system;
mod table;
mod view;
mod walk;

pub use seat::RelaxSeat;
pub use swept::Swept;
pub use system::{Direction, System};
pub use table::RelaxTable;
