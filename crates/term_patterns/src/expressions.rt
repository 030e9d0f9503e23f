//! Expressions with their names looked up.

ghost use Rattle.std.specs.Prelude.{◌≡◌, List, IfOk};
ghost use Rattle.pddl_types.specs.declared.pairs.Pair.{Pair};
ghost use Rattle.pddl_terms.specs.declared.names.Typed.{Typed};
ghost use Rattle.term_patterns.specs.Slots.{expression_slots, placed_slots};

use bound_atoms::{AtomSlots, fluent_slots};
use num_ends::{Dec, NoMemory};
use pddl_terms::{Expr, Op, Typed};
use pddl_types::Checked;
use sqlite_items::Boxed;
use static_facts::Statics;
use std::alloc::Global;

/// An expression with its names looked up.
#[derive(Debug, Drop)]
pub enum ExprSlots {
    /// A number, trimmed.
    Literal(Dec),
    /// The value of a function.
    Read(AtomSlots),
    /// An operation, the place of its right operand in its file, and its operands.
    Op(Op, u32, Boxed<ExprSlots>, Boxed<ExprSlots>),
}

#[tactic(auto, using(crate::proofs::Layers::placed_Lit, crate::proofs::Layers::placed_Read, crate::proofs::Layers::placed_Op))]
fn place_of(expr: &Expr) -> u32
    ensures { (p : Pair) (params : List Typed) → result ≡ (placed_slots p params expr.now).0 }
{
    match expr {
        Expr::Lit(_, at) => *at,
        Expr::Read(atom) => atom.head.at,
        Expr::Op(at, _, _, _) => *at,
    }
}

/// An expression's names looked up.
#[tactic(auto, using(crate::proofs::Layers::placed_Lit, crate::proofs::Layers::placed_Read, crate::proofs::Layers::placed_Op))]
pub(crate) fn expression_slots(
    alloc: Global,
    checked: &Checked,
    statics: &Statics,
    params: &[Typed],
    expr: &Expr,
) -> Result<ExprSlots, NoMemory>
    requires one_pair { statics.now ≡ checked.now }
    ensures { IfOk result (λ slots. slots ≡ expression_slots checked.now params.now expr.now) }
{
    match expr {
        Expr::Lit(value, _) => Ok(ExprSlots::Literal(value.trim())),
        Expr::Read(atom) => Ok(ExprSlots::Read(fluent_slots(
            alloc, checked, statics, params, atom,
        )?)),
        Expr::Op(_, op, left, right) => {
            let place = place_of(right.get());
            let left = expression_slots(alloc, checked, statics, params, left.get())?;
            let left = Boxed::new(alloc, left)?;
            let right = expression_slots(alloc, checked, statics, params, right.get())?;
            let right = Boxed::new(alloc, right)?;
            Ok(ExprSlots::Op(*op, place, left, right))
        }
    }
}
