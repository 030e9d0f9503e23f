//! The first of the faults that were found so far.

ghost use Rattle.std.specs.Prelude.{◌≡◌};
ghost use Rattle.pddl_trees.specs.Faults.{noted};

use crate::faults::{Fault, Reason};

/// The first of the faults that were noted.
#[derive(Clone, Copy, Debug)]
pub struct Notes {
    pub first: Option<Fault>,
}

impl Notes {
    pub fn new() -> Notes
        ensures { result.first ≡ None }
    {
        Notes { first: None }
    }

    /// Keeps the fault where none before it was noted that comes first.
    pub fn note(&mut self, at: u32, reason: Reason)
        ensures { self.new.first ≡ noted self.old.first (record { at = at; reason = reason }) }
    {
        let fault = Fault { at, reason };
        match self.first {
            Some(first) if !fault.is_before(first) => {}
            _ => self.first = Some(fault),
        }
    }
}
