//! Laws of the definitions, as functions that do nothing.

ghost use Rattle.bound_words.specs.Distance.{FurtherIsMoreDistant};

/// From one row, a row further out is no nearer, and one with a word further out is more distant.
///
/// So sweeps of a seat with every place come to an end: each but the last moves a word that it has seen further out,
/// and what it has seen lies within every closed row past the start.
pub fn further_is_more_distant()
    ensures { FurtherIsMoreDistant }
{}
