//! The linear form of a comparison.

use num_ends::{Dec, List};

/// The greatest number of repetitions, and the greatest value of an estimate.
pub const FAR: u32 = 1_000_000_000;

/// A linear form, which is to be 0, above 0 or at least 0.
#[derive(Debug, Drop)]
pub struct Linear {
    /// It is to be above 0.
    pub strict: bool,
    /// It is to be 0.
    pub equal: bool,
    /// Fluents in ascending order, each with its coefficient, which is not 0.
    pub terms: List<(u32, Dec)>,
    /// What is added to the terms.
    pub constant: Dec,
}
