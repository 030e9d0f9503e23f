//! Where the names of an action are looked up.

ghost use Rattle.std.specs.Prelude.{◌≡◌};

use pddl_terms::Typed;
use pddl_types::Checked;
use static_facts::Statics;

/// A pair with its static facts, and the parameters of an action.
#[derive(Clone, Copy)]
pub struct Scope<'a> {
    pub checked: &'a Checked,
    pub statics: &'a Statics<'a>,
    pub params: &'a [Typed],

    ghost one_pair: { statics.now ≡ checked.now },
}
