//! Predicates and functions by number.

ghost use Rattle.std.specs.Prelude.{◌≡◌};
ghost use Rattle.bound_atoms.specs.Symbols.{fact_symbol, fluent_symbol};

use pddl_types::Checked;
use static_facts::Statics;

/// A predicate or a function, by its name's place among those that are declared.
#[derive(Clone, Copy, Debug)]
pub struct Symbol {
    /// Its number; 0 where the name isn't declared.
    pub number: u32,
    /// Whether its name is declared.
    pub declared: bool,
    /// Whether no effect names it.
    pub fixed: bool,
}

/// The predicate of a name.
pub(crate) fn fact_symbol(checked: &Checked, statics: &Statics, head: &[u8]) -> Symbol
    requires one_pair { statics.now ≡ checked.now }
    ensures { result ≡ fact_symbol checked.now head.now }
{
    let _domain = checked.domain();
    match checked.predicate_number(head) {
        Some(number) => Symbol {
            number,
            declared: true,
            fixed: statics.predicate_fixed(number),
        },
        None => Symbol {
            number: 0,
            declared: false,
            fixed: true,
        },
    }
}

/// The function of a name.
pub(crate) fn fluent_symbol(checked: &Checked, statics: &Statics, head: &[u8]) -> Symbol
    requires one_pair { statics.now ≡ checked.now }
    ensures { result ≡ fluent_symbol checked.now head.now }
{
    let _domain = checked.domain();
    match checked.function_number(head) {
        Some(number) => Symbol {
            number,
            declared: true,
            fixed: statics.function_fixed(number),
        },
        None => Symbol {
            number: 0,
            declared: false,
            fixed: true,
        },
    }
}
