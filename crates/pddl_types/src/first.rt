//! The first of the faults that were found so far.

ghost use Rattle.std.specs.Prelude.{◌≡◌, OnOk, IfOk};
ghost use Rattle.pddl_types.specs.Faults.{check_fault, is_earlier, is_earlier_there, kind_rank, side_rank, with_fault};

use crate::faults::{CheckKind, Fault, Side};
use num_ends::{NoMemory, Text};
use pddl_terms::Name;
use std::alloc::Global;

impl Side {
    fn rank(self) -> u8
        ensures { result ≡ side_rank self }
    {
        match self {
            Side::Domain => 0,
            Side::Problem => 1,
        }
    }
}

impl CheckKind {
    /// The order of reasons at one place.
    fn rank(self) -> u8
        ensures { result ≡ kind_rank self }
    {
        match self {
            CheckKind::Duplicate => 0,
            CheckKind::UnknownType => 1,
            CheckKind::CyclicType => 2,
            CheckKind::UnknownName => 3,
            CheckKind::Arity => 4,
            CheckKind::WrongType => 5,
            CheckKind::Divide => 6,
        }
    }
}

// Whether a fault is earlier than another one of the same file.
fn is_earlier_there(side: Side, kind: CheckKind, name: &Name, first: &Fault) -> bool
    ensures { result ≡ is_earlier_there (check_fault side kind name.now) first.now }
{
    name.at < first.name.at || (name.at == first.name.at && kind.rank() < first.kind.rank())
}

fn is_earlier(side: Side, kind: CheckKind, name: &Name, first: &Fault) -> bool
    ensures { result ≡ is_earlier (check_fault side kind name.now) first.now }
{
    side.rank() < first.side.rank()
        || (side.rank() == first.side.rank() && is_earlier_there(side, kind, name, first))
}

fn copied(alloc: Global, name: &Name) -> Result<Name, NoMemory>
    ensures { IfOk result (λ copy. copy ≡ name.now) }
{
    let text = Vec::from_slice(alloc, name.text.as_slice())?;
    Ok(Name {
        text: Text::from_vec(text),
        at: name.at,
    })
}

/// The first of the faults that were noted.
#[derive(Debug, Drop)]
pub(crate) struct Notes {
    pub(crate) first: Option<Fault>,
}

impl Notes {
    pub(crate) fn new() -> Notes
        ensures { result.first ≡ None }
    {
        Notes { first: None }
    }

    /// Keeps the fault where none before it was noted that comes first.
    pub(crate) fn note(
        &mut self,
        alloc: Global,
        side: Side,
        kind: CheckKind,
        name: &Name,
    ) -> Result<(), NoMemory>
        ensures { OnOk result (self.new.first ≡ with_fault self.old.first (check_fault side kind name.now)) }
    {
        match &self.first {
            Some(first) if !is_earlier(side, kind, name, first) => {}
            _ => {
                let name = copied(alloc, name)?;
                self.first = Some(Fault { side, kind, name });
            }
        }
        Ok(())
    }
}
