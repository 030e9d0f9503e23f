//! The names, types and arities of a domain and a problem: the well-formed pair, or the first fault.
#![tactic(auto)]

mod atoms;
mod checked;
mod checking;
mod conditions;
mod declarations;
mod entries;
mod faults;
mod first;
mod laws;
mod letting_go;
mod lists;
mod named;
mod pairs;
mod tables;

pub use checked::Checked;
pub use checking::check;
pub use faults::{CheckFault, CheckKind, Side};
pub use laws::{faultless_pairs_are_well_formed, first_fault_is_first};
pub use pairs::{Pair, Sort};
