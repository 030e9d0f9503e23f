//! Why a pair isn't grounded.

use num_ends::Text;
use pddl_terms::What;
use pddl_types::Side;

/// Why a checked pair has no ground task.
#[derive(Debug, Drop)]
pub enum GroundFault {
    /// A fluent, by its text, that is assigned by an action or read by the goal has no first value.
    Unset(Text),
    /// A divisor at this place of a file has no inverse of at most 9 decimal places.
    Divide(Side, u32),
    /// A fluent, an action or `goal`, by its text, needs too many decimal places.
    Places(Text),
    /// A number leaves the range: an operation on constants in this action or in `goal`, or the first value of this fluent.
    Range(Text),
    /// There are more of these than may be.
    TooMany(What, u32),
    NoMemory,
}
