//! Equalities of objects with their names looked up.

ghost use Rattle.std.specs.Prelude.{◌≡◌};
ghost use Rattle.pddl_types.specs.Pairs.{written_text};
ghost use Rattle.bound_atoms.specs.Slots.{same_number, same_slots};

use crate::slots::{Slot, slot_of};
use pddl_terms::{Arg, Typed};
use pddl_types::Checked;

/// Whether two arguments are one object.
#[derive(Clone, Copy, Debug)]
pub enum SameSlots {
    /// The same under every binding, since one of them stands for no object.
    Decided(bool),
    /// Both stand for objects.
    Compared(Slot, Slot),
}

fn written_text(arg: &Arg) -> &[u8]
    ensures { result.now ≡ written_text arg.now }
{
    match arg {
        Arg::Var(name) => name.text.as_slice(),
        Arg::Obj(name) => name.text.as_slice(),
    }
}

/// An equality of two arguments with their names looked up.
pub fn same_slots(checked: &Checked, params: &[Typed], first: &Arg, second: &Arg) -> SameSlots
    ensures { result ≡ same_slots checked.now params.now first.now second.now }
{
    let one = slot_of(checked, params, first);
    let other = slot_of(checked, params, second);
    if one.is_object() && other.is_object() {
        return SameSlots::Compared(one, other);
    }
    let unknown = !one.is_object() && !other.is_object();
    SameSlots::Decided(unknown && written_text(first) == written_text(second))
}

impl SameSlots {
    /// Whether both are one object under a binding.
    pub fn is_same(self, objects: &[u32]) -> bool
        ensures { result ≡ same_number objects.now self }
    {
        match self {
            SameSlots::Decided(truth) => truth,
            SameSlots::Compared(one, other) => one.number(objects) == other.number(objects),
        }
    }
}
