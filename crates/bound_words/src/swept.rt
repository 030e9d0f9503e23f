//! What a sweep found.

/// The answer of a sweep.
#[derive(Clone, Copy, Debug, PartialEq, Eq)]
pub enum Swept {
    /// As many raises were begun at its end as were done at its start: no rule asks for more, from then on.
    Quiet,
    /// The number of raises done at its start, and the number begun at its end, which differ.
    Again(u64, u64),
}
