//! Why a domain and a problem aren't well formed.

use num_ends::NoMemory;
use pddl_terms::Name;

/// The file that a fault stands in.
#[derive(Clone, Copy, Debug, PartialEq, Eq)]
pub enum Side {
    Domain,
    Problem,
}

/// A reason why a pair isn't well formed.
#[derive(Clone, Copy, Debug, PartialEq, Eq)]
pub enum CheckKind {
    /// A type that isn't declared.
    UnknownType,
    /// A predicate, a function, an object or a variable that isn't declared, or one that stands for another sort.
    UnknownName,
    /// Another number of arguments than declared.
    Arity,
    /// An argument whose type doesn't fit the declared one.
    WrongType,
    /// A name that was declared before, or a fluent that was given a value before.
    Duplicate,
    /// A type that is its own ancestor.
    CyclicType,
    /// A divisor reads a function that an effect changes.
    Divide,
}

/// The first fault of a pair: its file, its reason, and the name at fault with its position.
#[derive(Debug, Drop)]
pub enum CheckFault {
    At(Side, CheckKind, Name),
    /// There is no memory for the check.
    NoMemory,
}

/// A reason with its file and the name at fault.
#[derive(Debug, Drop)]
pub(crate) struct Fault {
    pub(crate) side: Side,
    pub(crate) kind: CheckKind,
    pub(crate) name: Name,
}

impl From<NoMemory> for CheckFault {
    ghost use Rattle.std.specs.Prelude.{◌≡◌};
    ghost use Rattle.pddl_types.specs.declared.faults.CheckFault.TheVariants as check_fault;

    ghost from_gives = { λ _ fault. fault ≡ check_fault.NoMemory };

    fn from(_fault: NoMemory) -> CheckFault {
        CheckFault::NoMemory
    }
}
