//! The trees of a text.

use crate::marks::Span;
use sqlite_items::Items;
use std::alloc::{AllocError, AllocFailed};

/// A leaf, or a list of trees between brackets, with its place in the text.
#[derive(Debug, Drop)]
pub enum Tree {
    /// A word.
    Leaf(Span),
    /// The trees between an opening bracket and its closing one. The place begins with the one and ends with the other.
    List(Span, Items<Tree>),
}

/// Why a text has no trees. The number is a position in bytes.
#[derive(Clone, Copy, Debug, PartialEq, Eq)]
pub enum SexpFault {
    /// The outermost opening bracket without a closing one.
    Unclosed(u32),
    /// A closing bracket without an opening one.
    Stray(u32),
    /// A byte that isn't allowed outside a comment.
    BadByte(u32),
    /// An opening bracket before which 64 others are open.
    TooDeep(u32),
    /// There was no memory for the trees.
    NoMemory,
}

impl From<AllocError> for SexpFault {
    ghost use Rattle.std.specs.Prelude.{◌≡◌};
    ghost use Rattle.sexp_text.specs.declared.trees.SexpFault.TheVariants.{NoMemory};

    ghost from_gives = { λ _ fault. fault ≡ NoMemory };

    fn from(_fault: AllocError) -> SexpFault {
        SexpFault::NoMemory
    }
}

impl<T: Drop> From<AllocFailed<T>> for SexpFault {
    ghost use Rattle.std.specs.Prelude.{◌≡◌};
    ghost use Rattle.sexp_text.specs.declared.trees.SexpFault.TheVariants.{NoMemory};

    ghost from_gives = { λ _ fault. fault ≡ NoMemory };

    fn from(_fault: AllocFailed<T>) -> SexpFault {
        SexpFault::NoMemory
    }
}
