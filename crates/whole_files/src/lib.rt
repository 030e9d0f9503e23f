//! Files read whole, one after another, each up to a limit.
#![tactic(auto)]

mod gathered;
mod reading;
mod wanted;

pub use gathered::Gathered;
pub use reading::read_all;
pub use wanted::Wanted;
