//! Why a term isn't folded.

use num_ends::NoMemory;

/// Why a term has no folded form.
#[derive(Clone, Copy, Debug, PartialEq, Eq)]
pub enum FoldError {
    /// The divisor at this place of its file has no inverse of at most 9 decimal places.
    Divide(u32),
    /// An operation on constants leaves the range.
    OutOfRange,
    NoMemory,
}

impl From<NoMemory> for FoldError {
    ghost use Rattle.std.specs.Prelude.{◌≡◌};
    ghost use Rattle.folded_terms.specs.declared.faults.FoldError.TheVariants as answer;

    ghost from_gives = { λ _ fault. fault ≡ answer.NoMemory };

    fn from(_fault: NoMemory) -> FoldError {
        FoldError::NoMemory
    }
}
