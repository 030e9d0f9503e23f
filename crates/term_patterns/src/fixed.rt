//! What is fixed under a binding.

ghost use Rattle.std.specs.Prelude.{◌≡◌, unwrap_or};
ghost use Rattle.num_ends.specs.Decimal.{origin};
ghost use Rattle.pddl_meaning.specs.Truth.{at_polarity};
ghost use Rattle.bound_atoms.specs.Atoms.{slots_value};

use bound_atoms::AtomSlots;
use num_ends::Dec;
use static_facts::Statics;

/// A truth value, or at the polarity `false` its negation.
pub fn at_polarity(polarity: bool, truth: bool) -> bool
    ensures { result ≡ at_polarity polarity truth }
{
    if polarity { truth } else { !truth }
}

/// The value of a fluent at first under a binding; 0 where none is given.
pub fn first_value(statics: &Statics, slots: &AtomSlots, objects: &[u32]) -> Dec
    ensures { result ≡ unwrap_or (slots_value statics.now objects.now slots.now) origin }
{
    match slots.first_value(statics, objects) {
        Some(value) => value,
        None => Dec { n: 0, p: 0 },
    }
}
