//! Atoms with their names looked up.

ghost use Rattle.std.specs.Prelude.{◌≡◌, ◌≤◌, ◌<◌, ◌&&◌, IfOk, length, map};
ghost use Rattle.std.specs.List.{list_all};
ghost use Rattle.static_facts.specs.internal.Keys.{digit_at};
ghost use Rattle.bound_atoms.specs.Slots.{is_object, slot_number};
ghost use Rattle.bound_atoms.specs.Atoms.{capped_number, fact_slots, fluent_slots, slots_code, slots_truth, slots_value};

use crate::slots::{Slot, slots_of};
use crate::symbols::{Symbol, fact_symbol, fluent_symbol};
use arrayvec::ArrayVec;
use num_ends::{Dec, List, NoMemory};
use pddl_terms::{Atom, Typed};
use pddl_types::Checked;
use static_facts::Statics;
use std::alloc::Global;

// The most objects of an atom that is given at first.
const ARGUMENTS: usize = 8;

// The base of the digits of a code, of which each but 0 stands for an object.
const BASE: u128 = 4_096;

// The greatest number of an object that has a digit.
const LAST: u32 = 4_094;

/// An atom with its names looked up.
#[derive(Debug, Drop)]
pub struct AtomSlots {
    pub symbol: Symbol,
    /// Whether its name is declared and each argument stands for an object.
    pub known: bool,
    pub slots: List<Slot>,
}

fn are_objects(slots: &[Slot]) -> bool
    ensures { result ≡ list_all is_object slots.now }
{
    slots.iter().all(|slot| slot.is_object())
}

fn with_symbol(symbol: Symbol, slots: List<Slot>) -> AtomSlots
    ensures symbol { result.symbol ≡ symbol }
    ensures slots { result.slots ≡ slots }
    ensures known { result.known ≡ (symbol.declared && list_all is_object slots) }
{
    let known = symbol.declared && are_objects(slots.as_slice());
    AtomSlots {
        symbol,
        known,
        slots,
    }
}

/// A fact with its names looked up among predicates, parameters and objects.
pub fn fact_slots(
    alloc: Global,
    checked: &Checked,
    statics: &Statics,
    params: &[Typed],
    atom: &Atom,
) -> Result<AtomSlots, NoMemory>
    requires one_pair { statics.now ≡ checked.now }
    ensures { IfOk result (λ slots. slots ≡ fact_slots checked.now params.now atom.now) }
{
    let slots = slots_of(alloc, checked, params, atom.args.as_slice())?;
    let symbol = fact_symbol(checked, statics, atom.head.text.as_slice());
    Ok(with_symbol(symbol, slots))
}

/// A fluent with its names looked up among functions, parameters and objects.
pub fn fluent_slots(
    alloc: Global,
    checked: &Checked,
    statics: &Statics,
    params: &[Typed],
    atom: &Atom,
) -> Result<AtomSlots, NoMemory>
    requires one_pair { statics.now ≡ checked.now }
    ensures { IfOk result (λ slots. slots ≡ fluent_slots checked.now params.now atom.now) }
{
    let slots = slots_of(alloc, checked, params, atom.args.as_slice())?;
    let symbol = fluent_symbol(checked, statics, atom.head.text.as_slice());
    Ok(with_symbol(symbol, slots))
}

fn capped_number(slot: Slot, objects: &[u32]) -> u32
    ensures value { result ≡ capped_number objects.now slot }
    ensures small { result < 4095 }
{
    let number = slot.number(objects);
    if number < LAST { number } else { LAST }
}

fn digit(slots: &[Slot], objects: &[u32], place: usize) -> u128
    ensures value { result ≡ digit_at (map (capped_number objects.now) slots.now) place }
    ensures small { result < 4096 }
{
    match slots.get(place) {
        Some(slot) => u128::from(capped_number(*slot, objects)) + 1,
        None => 0,
    }
}

#[tactic(auto, unfolding(crate::specs::Atoms::slots_code))]
fn digits_of(symbol: u32, slots: &[Slot], objects: &[u32]) -> u128
    ensures { result ≡ slots_code objects.now symbol slots.now }
{
    let mut code = u128::from(symbol);
    'digits: for place in 0..ARGUMENTS {
        code = code * BASE + digit(slots, objects, place);
    }
    code
}

fn bound_objects(slots: &[Slot], objects: &[u32]) -> ArrayVec<u32, 8>
    requires few { length slots.now ≤ 8 }
    ensures { result.items ≡ map (slot_number objects.now) slots.now }
{
    let mut bound = ArrayVec::new();
    'each: for slot in slots {
        bound.push(slot.number(objects));
    }
    bound
}

impl AtomSlots {
    /// The atom's code under a binding.
    pub fn code(&self, objects: &[u32]) -> u128
        ensures { result ≡ slots_code objects.now self.now.symbol.number self.now.slots }
    {
        digits_of(self.symbol.number, self.slots.as_slice(), objects)
    }

    /// Whether the fact is true at first under a binding.
    #[tactic(auto, unfolding(crate::specs::Atoms::slots_truth))]
    pub fn first_truth(&self, statics: &Statics, objects: &[u32]) -> bool
        ensures { result ≡ slots_truth statics.now objects.now self.now }
    {
        if !self.known || self.slots.len() > ARGUMENTS {
            return false;
        }
        let bound = bound_objects(self.slots.as_slice(), objects);
        statics.fact(self.symbol.number, bound.as_slice())
    }

    /// The value of the fluent at first under a binding. None exactly where no value is given.
    #[tactic(auto, unfolding(crate::specs::Atoms::slots_value))]
    pub fn first_value(&self, statics: &Statics, objects: &[u32]) -> Option<Dec>
        ensures { result ≡ slots_value statics.now objects.now self.now }
    {
        if !self.known || self.slots.len() > ARGUMENTS {
            return None;
        }
        let bound = bound_objects(self.slots.as_slice(), objects);
        statics.value(self.symbol.number, bound.as_slice())
    }
}
