//! The values of conditions, by those of their atoms.

ghost use Rattle.std.specs.Prelude.{◌≡◌, ◌+◌, List, ℕ, min, sum, slice_index_or};
ghost use Rattle.simple_atoms.specs.declared.linear.TheConstants.{FAR};
ghost use Rattle.subgoal.specs.Equations.{least_of};
ghost use Rattle.subgoal.specs.Network.{picked, Evaluates, EvaluatesEach, EvaluatesOne};

use ground_task::GCond;
use simple_atoms::FAR;

/// The value of each atom, and the numbers of the atoms of conditions, in the order in which they stand there.
#[derive(Clone, Copy)]
pub(crate) struct Reading<'a> {
    pub weights: &'a [u32],
    pub numbers: &'a [usize],
}

/// The sum of two values, cut at `FAR`.
fn together(value: u32, other: u32) -> u32
    ensures { result ≡ min FAR (value + other) }
{
    let sum = u64::from(value) + u64::from(other);
    sum.min(u64::from(FAR)) as u32
}

/// The value of the atom of this number; 0 where there is none.
fn weight_at(weights: &[u32], number: usize) -> u32
    ensures { result ≡ slice_index_or weights.now number 0 }
{
    if number >= weights.len() {
        return 0;
    }
    weights[number]
}

/// The value of the atom whose number stands at a place, and the place behind it.
#[tactic(auto, using(crate::proofs::Reading::one_missing, crate::proofs::Reading::one_read))]
fn atom_at(reading: &Reading, at: usize) -> (u32, usize)
    ensures { EvaluatesOne (picked reading.now.weights.now reading.now.numbers.now) at result }
{
    if at >= reading.numbers.len() {
        return (FAR, at);
    }
    (weight_at(reading.weights, reading.numbers[at]), at + 1)
}

/// The value of a condition whose atoms' numbers stand from a place on, and the place behind them.
#[cycle(values)]
pub(crate) fn condition(reading: &Reading, cond: &GCond, at: usize) -> (u32, usize)
    ensures { Evaluates (picked reading.now.weights.now reading.now.numbers.now) at cond.now result }
{
    match cond {
        GCond::True => (0, at),
        GCond::False => (FAR, at),
        GCond::Fact(_, _) => atom_at(reading, at),
        GCond::Cmp(_, _, _) => atom_at(reading, at),
        GCond::And(conds) => all(reading, conds.as_slice(), at),
        GCond::Or(conds) => any(reading, conds.as_slice(), at),
    }
}

/// The sum of the values, cut at `FAR`, and the place behind the numbers.
#[cycle(values)]
fn all(reading: &Reading, conds: &[GCond], at: usize) -> (u32, usize)
    ensures { EvaluatesEach (picked reading.now.weights.now reading.now.numbers.now) at conds.now (λ (ns : List ℕ). min FAR (sum ns)) result }
{
    let mut total = 0;
    let mut next = at;
    'each: for cond in conds {
        let (value, behind) = condition(reading, cond, next);
        total = together(total, value);
        next = behind;
    }
    (total, next)
}

/// The least of the values, `FAR` where there is none, and the place behind the numbers.
#[cycle(values)]
fn any(reading: &Reading, conds: &[GCond], at: usize) -> (u32, usize)
    ensures { EvaluatesEach (picked reading.now.weights.now reading.now.numbers.now) at conds.now least_of result }
{
    let mut least = FAR;
    let mut next = at;
    'each: for cond in conds {
        let (value, behind) = condition(reading, cond, next);
        least = least.min(value);
        next = behind;
    }
    (least, next)
}
