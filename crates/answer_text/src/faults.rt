//! Why a text isn't written.

ghost use Rattle.std.specs.Prelude.{◌≡◌};
ghost use Rattle.answer_text.specs.Sending.{fault_of};
ghost use Rattle.answer_text.specs.declared.faults.Unsent.TheVariants as unsent;

use edge_io::Failed;
use num_ends::NoMemory;
use std::alloc::AllocError;
use thiserror::Error;

/// Why a text isn't written.
#[derive(Clone, Copy, Debug, PartialEq, Eq, Error)]
pub enum SendFault {
    /// The sink failed.
    #[error("the output failed")]
    Sink,
    /// There was no memory for a part of the text.
    #[error("out of memory")]
    NoMemory,
}

/// Why a text isn't sent whole, and how much of it is.
#[derive(Clone, Copy, Debug, PartialEq, Eq, Error)]
pub enum Unsent {
    /// The sink failed, before the last byte.
    #[error("the output failed")]
    Sink,
    /// There was no memory before the first byte.
    #[error("out of memory")]
    NoMemory,
    /// There was no memory behind the first byte and before the last.
    #[error("out of memory within a text")]
    CutShort,
}

impl From<Unsent> for SendFault {
    ghost from_gives = { λ fault e. e ≡ fault_of fault };

    fn from(fault: Unsent) -> SendFault {
        match fault {
            Unsent::Sink => SendFault::Sink,
            Unsent::NoMemory | Unsent::CutShort => SendFault::NoMemory,
        }
    }
}

impl From<Failed> for Unsent {
    ghost from_gives = { λ _ e. e ≡ unsent.Sink };

    fn from(_fault: Failed) -> Unsent {
        Unsent::Sink
    }
}

impl From<NoMemory> for Unsent {
    ghost from_gives = { λ _ e. e ≡ unsent.NoMemory };

    fn from(_fault: NoMemory) -> Unsent {
        Unsent::NoMemory
    }
}

impl From<AllocError> for Unsent {
    ghost from_gives = { λ _ e. e ≡ unsent.NoMemory };

    fn from(_fault: AllocError) -> Unsent {
        Unsent::NoMemory
    }
}
