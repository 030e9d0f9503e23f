//! What is wrong with a text, and the order of faults.

ghost use Rattle.std.specs.Prelude.{◌≡◌};
ghost use Rattle.pddl_trees.specs.Faults.{rank_of, is_before};

use pddl_terms::What;

/// What is wrong at a place.
#[derive(Clone, Copy, Debug, PartialEq, Eq)]
pub enum Reason {
    /// A number that can't be read, or has more than 9 places, or is out of range.
    Number,
    /// One more than a limit allows.
    TooMany(What),
    /// A word of PDDL that this planner doesn't take.
    Unsupported,
    /// A tree that doesn't fit, or a list in which a part is missing.
    Shape,
    /// An expression or a condition that is more than 400 high.
    TooDeep,
}

impl Reason {
    /// The order of reasons at one place.
    pub fn rank(self) -> u8
        ensures { result ≡ rank_of self }
    {
        match self {
            Reason::Number => 0,
            Reason::TooMany(What::Letters) => 1,
            Reason::TooMany(What::Objects) => 2,
            Reason::TooMany(What::Parameters) => 3,
            Reason::TooMany(What::Effects) => 4,
            Reason::TooMany(What::Prefixes) => 5,
            Reason::TooMany(What::Actions) => 6,
            Reason::TooMany(What::Facts) => 7,
            Reason::TooMany(What::Fluents) => 8,
            Reason::TooMany(What::Supporters) => 9,
            Reason::Unsupported => 10,
            Reason::Shape => 11,
            Reason::TooDeep => 12,
        }
    }
}

/// A reason and the position in bytes where it stands.
#[derive(Clone, Copy, Debug, PartialEq, Eq)]
pub struct Fault {
    pub at: u32,
    pub reason: Reason,
}

impl Fault {
    /// Whether a fault comes first: at a smaller position, or at the same one by a reason of smaller rank.
    pub fn is_before(self, other: Fault) -> bool
        ensures { result ≡ is_before self other }
    {
        self.at < other.at || (self.at == other.at && self.reason.rank() < other.reason.rank())
    }
}
