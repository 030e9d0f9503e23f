//! The literals among the top conjuncts of a condition.

ghost use Rattle.std.specs.Prelude.{◌≡◌, IfOk};
ghost use Rattle.std.specs.List.{list_all};
ghost use Rattle.pddl_meaning.specs.Truth.{at_polarity, literals_true};

use crate::conditions::{is_fact, is_same};
use crate::texts::Binding;
use num_ends::NoMemory;
use pddl_terms::Cond;

/// Whether each top conjunct that is a literal is true, or at the polarity `false` each one of the condition's negation. The
/// buffer is for texts.
#[cycle(literals)]
#[tactic(auto, using(crate::proofs::Conjuncts::literals_And, crate::proofs::Conjuncts::literals_Or, crate::proofs::Conjuncts::literals_Not, crate::proofs::Conjuncts::literals_Imply, crate::proofs::Conjuncts::literals_Fact, crate::proofs::Conjuncts::literals_Same, crate::proofs::Conjuncts::literals_Cmp))]
pub(crate) fn literals_true(
    binding: &Binding,
    cond: &Cond,
    polarity: bool,
    buffer: &mut Vec<u8>,
) -> Result<bool, NoMemory>
    ensures { IfOk result (λ holds. holds ≡ literals_true binding.now.params.now binding.now.args.now binding.now.world.now cond.now polarity) }
{
    match cond {
        Cond::And(conds) => {
            if !polarity {
                return Ok(true);
            }
            all_literals_true(binding, conds.as_slice(), true, buffer)
        }
        Cond::Or(conds) => {
            if polarity {
                return Ok(true);
            }
            all_literals_true(binding, conds.as_slice(), false, buffer)
        }
        Cond::Not(cond) => literals_true(binding, cond.get(), !polarity, buffer),
        Cond::Imply(first, second) => {
            if polarity {
                return Ok(true);
            }
            let first = literals_true(binding, first.get(), true, buffer)?;
            let second = literals_true(binding, second.get(), false, buffer)?;
            Ok(first && second)
        }
        Cond::Fact(atom) => Ok(at_polarity(polarity, is_fact(binding, atom, buffer)?)),
        Cond::Same(first, second) => Ok(at_polarity(polarity, is_same(binding, first, second))),
        Cond::Cmp(_, _, _) => Ok(true),
    }
}

#[cycle(literals)]
fn all_literals_true(
    binding: &Binding,
    conds: &[Cond],
    polarity: bool,
    buffer: &mut Vec<u8>,
) -> Result<bool, NoMemory>
    ensures { IfOk result (λ holds. holds ≡ list_all (λ c. literals_true binding.now.params.now binding.now.args.now binding.now.world.now c polarity) conds.now) }
{
    'each: for cond in conds {
        if !literals_true(binding, cond, polarity, buffer)? {
            return Ok(false);
        }
    }
    Ok(true)
}

fn at_polarity(polarity: bool, truth: bool) -> bool
    ensures { result ≡ at_polarity polarity truth }
{
    if polarity { truth } else { !truth }
}
