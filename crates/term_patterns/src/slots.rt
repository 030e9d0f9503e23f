//! Conditions with their names looked up, and negation moved inward.

ghost use Rattle.std.specs.Prelude.{◌≡◌, [], ◌∷◌, IfOk, map};
ghost use Rattle.bound_atoms.specs.Atoms.{fact_slots};
ghost use Rattle.term_patterns.specs.declared.slots.CondSlots.TheVariants as cond;
ghost use Rattle.term_patterns.specs.Slots.{condition_slots, expression_slots, joined_slots};

use crate::expressions::{ExprSlots, expression_slots};
use bound_atoms::{AtomSlots, SameSlots, fact_slots, same_slots};
use num_ends::NoMemory;
use pddl_terms::{Atom, Cond, Expr, Rel, Typed};
use pddl_types::Checked;
use sqlite_items::Items;
use static_facts::Statics;
use std::alloc::Global;

/// A condition with its names looked up. Where its truth value is `false` a member stands for its negation.
#[derive(Debug, Drop)]
pub enum CondSlots {
    /// All of these hold.
    All(Items<CondSlots>),
    /// One of these holds.
    Any(Items<CondSlots>),
    /// A fact has this truth value.
    Fact(bool, AtomSlots),
    /// Whether two arguments are one object has this truth value.
    Same(bool, SameSlots),
    /// A comparison of two expressions has this truth value.
    Compared(bool, Rel, ExprSlots, ExprSlots),
}

/// Where names are looked up.
#[derive(Clone, Copy)]
pub(crate) struct Scope<'a> {
    pub(crate) checked: &'a Checked,
    pub(crate) statics: &'a Statics<'a>,
    pub(crate) params: &'a [Typed],

    ghost one_pair: { statics.now ≡ checked.now },
}

fn comparison_slots(
    alloc: Global,
    scope: &Scope,
    polarity: bool,
    rel: Rel,
    left: &Expr,
    right: &Expr,
) -> Result<CondSlots, NoMemory>
    ensures { IfOk result (λ slots. slots ≡ cond.Compared polarity rel (expression_slots scope.now.checked.now scope.now.params.now left.now) (expression_slots scope.now.checked.now scope.now.params.now right.now)) }
{
    let left = expression_slots(alloc, scope.checked, scope.statics, scope.params, left)?;
    let right = expression_slots(alloc, scope.checked, scope.statics, scope.params, right)?;
    Ok(CondSlots::Compared(polarity, rel, left, right))
}

fn fact_of(alloc: Global, scope: &Scope, polarity: bool, atom: &Atom) -> Result<CondSlots, NoMemory>
    ensures { IfOk result (λ slots. slots ≡ cond.Fact polarity (fact_slots scope.now.checked.now scope.now.params.now atom.now)) }
{
    let slots = fact_slots(alloc, scope.checked, scope.statics, scope.params, atom)?;
    Ok(CondSlots::Fact(polarity, slots))
}

fn pair_of(alloc: Global, first: CondSlots, second: CondSlots) -> Result<Items<CondSlots>, NoMemory>
    ensures { IfOk result (λ items. items ≡ first ∷ second ∷ []) }
{
    let mut items = Items::new(alloc);
    items.push(first)?;
    items.push(second)?;
    Ok(items)
}

fn joined(conjunction: bool, members: Items<CondSlots>) -> CondSlots
    ensures { result ≡ joined_slots conjunction members }
{
    if conjunction {
        CondSlots::All(members)
    } else {
        CondSlots::Any(members)
    }
}

/// The names of a condition looked up, or at the polarity `false` those of its negation.
#[cycle(slots)]
#[tactic(auto, using(crate::proofs::Layers::slots_And, crate::proofs::Layers::slots_Or, crate::proofs::Layers::slots_Not, crate::proofs::Layers::slots_Imply, crate::proofs::Layers::slots_Fact, crate::proofs::Layers::slots_Same, crate::proofs::Layers::slots_Cmp))]
pub(crate) fn condition_slots(
    alloc: Global,
    scope: &Scope,
    cond: &Cond,
    polarity: bool,
) -> Result<CondSlots, NoMemory>
    ensures { IfOk result (λ slots. slots ≡ condition_slots scope.now.checked.now scope.now.params.now cond.now polarity) }
{
    match cond {
        Cond::And(conds) => Ok(joined(
            polarity,
            all_slots(alloc, scope, conds.as_slice(), polarity)?,
        )),
        Cond::Or(conds) => Ok(joined(
            !polarity,
            all_slots(alloc, scope, conds.as_slice(), polarity)?,
        )),
        Cond::Not(cond) => condition_slots(alloc, scope, cond.get(), !polarity),
        Cond::Imply(first, second) => {
            let first = condition_slots(alloc, scope, first.get(), !polarity)?;
            let second = condition_slots(alloc, scope, second.get(), polarity)?;
            Ok(joined(!polarity, pair_of(alloc, first, second)?))
        }
        Cond::Fact(atom) => fact_of(alloc, scope, polarity, atom),
        Cond::Same(first, second) => Ok(CondSlots::Same(
            polarity,
            same_slots(scope.checked, scope.params, first, second),
        )),
        Cond::Cmp(rel, left, right) => comparison_slots(alloc, scope, polarity, *rel, left, right),
    }
}

#[cycle(slots)]
fn all_slots(
    alloc: Global,
    scope: &Scope,
    conds: &[Cond],
    polarity: bool,
) -> Result<Items<CondSlots>, NoMemory>
    ensures { IfOk result (λ items. items ≡ map (λ c. condition_slots scope.now.checked.now scope.now.params.now c polarity) conds.now) }
{
    let mut items = Vec::with_capacity(alloc, conds.len())?;
    'each: for cond in conds {
        items.push(condition_slots(alloc, scope, cond, polarity)?)?;
    }
    Ok(Items::from_vec(items))
}
