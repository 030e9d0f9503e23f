//! Why a term isn't folded.

/// Why a term has no folded form.
#[derive(Clone, Copy, Debug, PartialEq, Eq)]
pub enum TermFault {
    /// The divisor at this place of its file has no inverse of at most 9 decimal places.
    Divide(u32),
    /// An operation on constants leaves the range.
    OutOfRange,
}
