//! Atoms under bindings of parameters to objects: names are looked up once, and a binding costs numbers alone.
#![tactic(auto)]

mod atoms;
mod bound;
mod same;
mod slots;
mod symbols;

pub use atoms::{AtomSlots, fact_slots, fluent_slots};
pub use bound::{FactPattern, FluentPattern};
pub use same::{SameSlots, same_slots};
pub use slots::Slot;
pub use symbols::Symbol;
