//! What files and sinks refuse.

/// The outside didn't do what was asked, or the named file isn't there.
#[derive(Clone, Copy, Debug, PartialEq, Eq)]
pub struct Failed;
