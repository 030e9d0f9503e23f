//! Linear combinations of fluents.

use num_ends::{Dec, List};

/// Fluents in ascending order, each with a coefficient that is not 0, and a constant. All decimals are trimmed.
#[derive(Debug, Drop)]
pub(crate) struct Combination {
    pub terms: List<(u32, Dec)>,
    pub constant: Dec,
}
