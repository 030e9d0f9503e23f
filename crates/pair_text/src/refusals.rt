//! Why files aren't accepted.

use num_ends::{NoMemory, Text};
use pddl_terms::What;
use pddl_types::CheckKind;

/// The file that a refusal speaks of.
#[derive(Clone, Copy, Debug, PartialEq, Eq)]
pub enum Source {
    Domain,
    Problem,
    Plan,
    Certificate,
}

/// A place in a file: line and column from 1. Columns count bytes.
#[derive(Clone, Copy, Debug, PartialEq, Eq)]
pub struct Place {
    pub line: u32,
    pub column: u32,
}

/// Why a text or a pair isn't accepted.
#[derive(Debug, Drop)]
pub enum Reason {
    /// The outermost opening bracket without a closing one.
    Unclosed,
    /// A closing bracket without an opening one.
    Stray,
    /// A byte that isn't allowed outside a comment.
    BadByte,
    /// Brackets, an expression or a condition that are nested too deep.
    TooDeep,
    /// A word of PDDL that this planner doesn't take.
    Unsupported(Text),
    /// A tree that doesn't fit, or a list in which a part is missing.
    Shape,
    /// A number that can't be read, or has too many places, or is out of range.
    Number,
    /// The first thing past a limit.
    TooMany(What),
    /// Domain and problem don't go together, or one of them isn't well formed, with the name at fault.
    Ill(CheckKind, Text),
}

/// Why a line of a certificate can't be read.
#[derive(Clone, Copy, Debug, PartialEq, Eq)]
pub enum LineReason {
    /// The line isn't one that may stand there.
    BadLine,
    /// The text ends before this line, which was to end the certificate.
    EndsEarly,
    /// The line of the first box or of the first state past a limit.
    TooMany,
}

/// An answer to files that aren't accepted.
#[derive(Debug, Drop)]
pub enum Refusal {
    /// A file that is larger than it may be.
    TooLarge(Source),
    /// A reason at a place of a file.
    At(Source, Place, Reason),
    /// The number of the first line of a plan file that is neither skipped nor a step.
    BadLine(u32),
    /// The number of the first line at fault of a certificate, and why.
    InCertificate(u32, LineReason),
    /// A fluent without a first value that an action assigns or that the goal reads.
    Unset(Text),
    /// What needs more places than there are: a fluent, an action, or `goal`.
    Places(Text),
    /// What leaves the range of numbers: a fluent at its places, an action, or `goal`.
    Range(Text),
    /// A limit that isn't passed at a place of a file.
    Limit(What),
    /// A part of the planner that isn't there yet.
    Unbuilt,
}

/// Why two texts give no checked pair.
#[derive(Debug, Drop)]
pub enum PairFault {
    /// The first reason against them.
    Refused(Refusal),
    /// There was no memory for the pair.
    NoMemory,
}

impl From<NoMemory> for PairFault {
    ghost use Rattle.std.specs.Prelude.{◌≡◌};
    ghost use Rattle.pair_text.specs.declared.refusals.PairFault.TheVariants as answer;

    ghost from_gives = { λ _ fault. fault ≡ answer.NoMemory };

    fn from(_fault: NoMemory) -> PairFault {
        PairFault::NoMemory
    }
}
