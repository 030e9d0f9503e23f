//! Why a text is no domain or problem.

use num_ends::NoMemory;
use pddl_terms::{Name, What};
use sexp_text::SexpFault;
use std::alloc::{AllocError, AllocFailed};

/// Why a text isn't read. The numbers are positions in bytes; the first fault in the order of the text is answered.
#[derive(Debug, Drop)]
pub enum ReadFault {
    /// The text has no trees.
    Syntax(SexpFault),
    /// A word of PDDL that this planner doesn't take.
    Unsupported(Name),
    /// A tree that doesn't fit, or a list in which a part is missing.
    Shape(u32),
    /// A number that can't be read, or has more than 9 places, or is out of range.
    Number(u32),
    /// An expression or a condition that is more than 400 high.
    TooDeep(u32),
    /// The first thing past a limit.
    TooMany(What, u32),
    /// There was no memory for the data.
    NoMemory,
}

impl From<AllocError> for ReadFault {
    ghost use Rattle.std.specs.Prelude.{◌≡◌};
    ghost use Rattle.pddl_reader.specs.declared.faults.ReadFault.TheVariants.{NoMemory};

    ghost from_gives = { λ _ fault. fault ≡ NoMemory };

    fn from(_fault: AllocError) -> ReadFault {
        ReadFault::NoMemory
    }
}

impl<T: Drop> From<AllocFailed<T>> for ReadFault {
    ghost use Rattle.std.specs.Prelude.{◌≡◌};
    ghost use Rattle.pddl_reader.specs.declared.faults.ReadFault.TheVariants.{NoMemory};

    ghost from_gives = { λ _ fault. fault ≡ NoMemory };

    fn from(_fault: AllocFailed<T>) -> ReadFault {
        ReadFault::NoMemory
    }
}

impl From<NoMemory> for ReadFault {
    ghost use Rattle.std.specs.Prelude.{◌≡◌};
    ghost use Rattle.pddl_reader.specs.declared.faults.ReadFault.TheVariants as answer;

    ghost from_gives = { λ _ fault. fault ≡ answer.NoMemory };

    fn from(_fault: NoMemory) -> ReadFault {
        ReadFault::NoMemory
    }
}
