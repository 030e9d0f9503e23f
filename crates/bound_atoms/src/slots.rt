//! Arguments with their names looked up.

ghost use Rattle.std.specs.Prelude.{◌≡◌, IfOk, map};
ghost use Rattle.name_table.specs.Tables.{place_in};
ghost use Rattle.name_table.specs.TypedLists.{names_of};
ghost use Rattle.pddl_types.specs.Pairs.{objects_of};
ghost use Rattle.bound_atoms.specs.Slots.{is_object, object_slot, slot_number, slot_of};

use num_ends::{List, NoMemory};
use pddl_terms::{Arg, Typed};
use pddl_types::Checked;
use std::alloc::Global;

/// What an argument stands for.
#[derive(Clone, Copy, Debug)]
pub enum Slot {
    /// The object that the parameter with this number is bound to.
    Parameter(usize),
    /// The object with this number.
    Object(u32),
    /// No object: the name is neither a parameter's nor an object's.
    Unknown,
}

impl Slot {
    /// The number of the object under a binding of the parameters to objects by their numbers; 0 where there is none.
    pub fn number(self, objects: &[u32]) -> u32
        ensures { result ≡ slot_number objects.now self }
    {
        match self {
            Slot::Parameter(place) => objects.get(place).copied().unwrap_or(0),
            Slot::Object(object) => object,
            Slot::Unknown => 0,
        }
    }

    /// Whether there is an object.
    pub fn is_object(self) -> bool
        ensures { result ≡ is_object self }
    {
        match self {
            Slot::Parameter(_) | Slot::Object(_) => true,
            Slot::Unknown => false,
        }
    }
}

fn place_of(params: &[Typed], text: &[u8]) -> Option<usize>
    ensures { result ≡ place_in text.now (names_of params.now) }
{
    let mut place = 0;
    'each: for param in params {
        if text == param.name.text.as_slice() {
            return Some(place);
        }
        place += 1;
    }
    None
}

fn object_slot(checked: &Checked, text: &[u8]) -> Slot
    ensures { result ≡ object_slot (place_in text.now (names_of (objects_of checked.now))) }
{
    match checked.object_number(text) {
        Some(object) => Slot::Object(object),
        None => Slot::Unknown,
    }
}

/// An argument's name looked up among parameters and objects.
pub(crate) fn slot_of(checked: &Checked, params: &[Typed], arg: &Arg) -> Slot
    ensures { result ≡ slot_of checked.now params.now arg.now }
{
    match arg {
        Arg::Var(name) => match place_of(params, name.text.as_slice()) {
            Some(place) => Slot::Parameter(place),
            None => object_slot(checked, name.text.as_slice()),
        },
        Arg::Obj(name) => object_slot(checked, name.text.as_slice()),
    }
}

/// The names of arguments looked up.
pub(crate) fn slots_of(
    alloc: Global,
    checked: &Checked,
    params: &[Typed],
    args: &[Arg],
) -> Result<List<Slot>, NoMemory>
    ensures { IfOk result (λ slots. slots ≡ map (slot_of checked.now params.now) args.now) }
{
    let mut slots = Vec::with_capacity(alloc, args.len())?;
    'each: for arg in args {
        slots.push(slot_of(checked, params, arg))?;
    }
    Ok(List::from_vec(slots))
}
