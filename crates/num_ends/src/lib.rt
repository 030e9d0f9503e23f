//! Exact decimals of 128 bits with at most 18 places, intervals between ends, and thin lists.
#![tactic(auto)]

mod arithmetic;
mod compared;
mod dec;
mod end_arithmetic;
mod ends;
mod faults;
mod interval;
pub mod laws;
mod lists;
mod names;
mod order;
mod outward;
mod read;
mod write;

pub use dec::Dec;
pub use ends::End;
pub use faults::{NoMemory, NumFault, Range};
pub use interval::Interval;
pub use lists::{List, Text};
pub use names::{folded, folded_text, is_name, is_name_folded};
pub use read::read_dec;
pub use write::write_dec;
