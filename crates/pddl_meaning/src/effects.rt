//! What the effects of an action change, computed while the world is read.

ghost use Rattle.std.specs.Prelude.{◌≡◌, ◌∷◌, ◌++◌, IfOk, bytes_eq, flat_map, length, option_map};
ghost use Rattle.pddl_meaning.specs.Effects.{added_by, numeric_effect_by, numeric_effects, deleted_by, first_part, further_part, is_joined, reads_old};
ghost use Rattle.pddl_meaning.specs.internal.Computed.{evaluation_of, evaluations_of, evaluations_on, are_compatible_evaluations, defined_evaluation, new_values, ready_evaluations, value_from, with_parts};
ghost use Rattle.pddl_terms.specs.Texts.{ground_text};
ghost use Rattle.pddl_meaning.specs.Values.{in_bounds, reads_defined, value_by};

use crate::texts::{Binding, ground_text};
use crate::values::{combine, reads_defined, value_of};
use num_ends::{Dec, List, NoMemory, Text};
use pddl_terms::{Assign, Atom, Effect, Expr, Op};
use std::alloc::Global;

/// A numeric effect under a binding.
#[derive(Debug, Drop)]
pub(crate) struct Evaluation {
    pub(crate) how: Assign,
    /// The changed fluent.
    pub(crate) fluent: Text,
    /// Its value, where it has one.
    pub(crate) old: Option<Dec>,
    /// The value of the expression; none where a subvalue leaves the range.
    pub(crate) by: Option<Dec>,
}

// ---- facts

/// The texts of the facts that effects add.
pub(crate) fn added_texts(
    alloc: Global,
    binding: &Binding,
    effects: &[Effect],
) -> Result<List<Text>, NoMemory>
    ensures { IfOk result (λ texts. texts ≡ flat_map (added_by binding.now.params.now binding.now.args.now) effects.now) }
{
    let mut texts = List::new(alloc);
    'each: for effect in effects {
        if let Effect::Add(atom) = effect {
            texts.push(Text::from_vec(ground_text(alloc, binding, atom)?))?;
        }
    }
    Ok(texts)
}

/// The texts of the facts that effects delete.
pub(crate) fn deleted_texts(
    alloc: Global,
    binding: &Binding,
    effects: &[Effect],
) -> Result<List<Text>, NoMemory>
    ensures { IfOk result (λ texts. texts ≡ flat_map (deleted_by binding.now.params.now binding.now.args.now) effects.now) }
{
    let mut texts = List::new(alloc);
    'each: for effect in effects {
        if let Effect::Del(atom) = effect {
            texts.push(Text::from_vec(ground_text(alloc, binding, atom)?))?;
        }
    }
    Ok(texts)
}

// ---- evaluations

fn reads_old(how: Assign) -> bool
    ensures { result ≡ reads_old how }
{
    match how {
        Assign::Set => false,
        Assign::Up | Assign::Down | Assign::Scale => true,
    }
}

fn is_joined(how: Assign) -> bool
    ensures { result ≡ is_joined how }
{
    match how {
        Assign::Set | Assign::Scale => false,
        Assign::Up | Assign::Down => true,
    }
}

fn evaluation_of(
    alloc: Global,
    binding: &Binding,
    how: Assign,
    atom: &Atom,
    expr: &Expr,
    buffer: &mut Vec<u8>,
) -> Result<Evaluation, NoMemory>
    ensures { IfOk result (λ evaluation. evaluation ≡ evaluation_of binding.now.params.now binding.now.args.now binding.now.world.now (record { how = how; fluent = ground_text binding.now.params.now binding.now.args.now atom.now; by = expr.now })) }
{
    let fluent = ground_text(alloc, binding, atom)?;
    let old = binding.world.value(fluent.as_slice());
    let by = value_of(binding, expr, buffer)?;
    Ok(Evaluation {
        how,
        fluent: Text::from_vec(fluent),
        old,
        by,
    })
}

/// Whether each fluent that an expression reads is defined, where its value is known if it has one.
fn is_defined(
    binding: &Binding,
    expr: &Expr,
    value: Option<Dec>,
    buffer: &mut Vec<u8>,
) -> Result<bool, NoMemory>
    requires { value ≡ value_by in_bounds binding.now.params.now binding.now.args.now binding.now.world.now expr.now }
    ensures { IfOk result (λ defined. defined ≡ reads_defined binding.now.params.now binding.now.args.now binding.now.world.now expr.now) }
{
    if value.is_some() {
        return Ok(true);
    }
    reads_defined(binding, expr, buffer)
}

/// The evaluation of a numeric effect; none where it reads an undefined fluent.
fn defined_evaluation(
    alloc: Global,
    binding: &Binding,
    how: Assign,
    atom: &Atom,
    expr: &Expr,
    buffer: &mut Vec<u8>,
) -> Result<Option<Evaluation>, NoMemory>
    ensures { IfOk result (λ evaluation. evaluation ≡ defined_evaluation binding.now.params.now binding.now.args.now binding.now.world.now (record { how = how; fluent = ground_text binding.now.params.now binding.now.args.now atom.now; by = expr.now })) }
{
    let evaluation = evaluation_of(alloc, binding, how, atom, expr, buffer)?;
    if !is_defined(binding, expr, evaluation.by, buffer)? {
        return Ok(None);
    }
    if reads_old(how) && evaluation.old.is_none() {
        return Ok(None);
    }
    Ok(Some(evaluation))
}

/// Evaluations with that of a further effect, if it is numeric; none where it reads an undefined fluent.
fn with_effect(
    alloc: Global,
    binding: &Binding,
    effect: &Effect,
    mut evaluations: List<Evaluation>,
    buffer: &mut Vec<u8>,
) -> Result<Option<List<Evaluation>>, NoMemory>
    ensures { IfOk result (λ more. more ≡ option_map (λ own. evaluations ++ own) (evaluations_of binding.now.params.now binding.now.args.now binding.now.world.now (numeric_effect_by binding.now.params.now binding.now.args.now effect.now))) }
{
    if let Effect::Num(how, atom, expr) = effect {
        let Some(evaluation) = defined_evaluation(alloc, binding, *how, atom, expr, buffer)? else {
            return Ok(None);
        };
        evaluations.push(evaluation)?;
    }
    Ok(Some(evaluations))
}

/// The evaluations of numeric effects; none where one of them reads an undefined fluent.
fn evaluations_of(
    alloc: Global,
    binding: &Binding,
    effects: &[Effect],
    buffer: &mut Vec<u8>,
) -> Result<Option<List<Evaluation>>, NoMemory>
    ensures { IfOk result (λ evaluations. evaluations ≡ evaluations_of binding.now.params.now binding.now.args.now binding.now.world.now (numeric_effects binding.now.params.now binding.now.args.now effects.now)) }
{
    let mut evaluations = List::new(alloc);
    'each: for effect in effects {
        match with_effect(alloc, binding, effect, evaluations, buffer)? {
            Some(more) => evaluations = more,
            None => return Ok(None),
        }
    }
    Ok(Some(evaluations))
}

fn is_on(fluent: &[u8], evaluation: &Evaluation) -> bool
    ensures { result ≡ bytes_eq fluent.now evaluation.now.fluent }
{
    fluent == evaluation.fluent.as_slice()
}

/// How many evaluations are on a fluent.
fn count_on(fluent: &[u8], evaluations: &[Evaluation]) -> usize
    ensures { result ≡ length (evaluations_on fluent.now evaluations.now) }
{
    let mut count = 0;
    'each: for evaluation in evaluations {
        if is_on(fluent, evaluation) {
            count += 1;
        }
    }
    count
}

/// Whether no `assign` or `scale-up` stands beside another evaluation on the same fluent.
fn are_compatible(evaluations: &[Evaluation]) -> bool
    ensures { result ≡ are_compatible_evaluations evaluations.now }
{
    'each: for evaluation in evaluations {
        if !is_joined(evaluation.how) && count_on(evaluation.fluent.as_slice(), evaluations) > 1 {
            return false;
        }
    }
    true
}

/// The evaluations of numeric effects; none where one of them reads an undefined fluent, or two are in conflict.
#[tactic(auto, using(crate::proofs::Evaluations::ready_by))]
pub(crate) fn ready_evaluations(
    alloc: Global,
    binding: &Binding,
    effects: &[Effect],
    buffer: &mut Vec<u8>,
) -> Result<Option<List<Evaluation>>, NoMemory>
    ensures { IfOk result (λ evaluations. evaluations ≡ ready_evaluations binding.now.params.now binding.now.args.now binding.now.world.now (numeric_effects binding.now.params.now binding.now.args.now effects.now)) }
{
    let Some(evaluations) = evaluations_of(alloc, binding, effects, buffer)? else {
        return Ok(None);
    };
    if !are_compatible(evaluations.as_slice()) {
        return Ok(None);
    }
    Ok(Some(evaluations))
}

// ---- new values

fn first_part(how: Assign, value: Option<Dec>) -> Option<Dec>
    ensures { result ≡ first_part in_bounds how value }
{
    match how {
        Assign::Down => combine(Op::Sub, Some(Dec { n: 0, p: 0 }), value),
        Assign::Set | Assign::Up | Assign::Scale => value,
    }
}

fn further_part(how: Assign, sum: Option<Dec>, value: Option<Dec>) -> Option<Dec>
    ensures { result ≡ further_part in_bounds how sum value }
{
    match how {
        Assign::Down => combine(Op::Sub, sum, value),
        Assign::Set | Assign::Up | Assign::Scale => combine(Op::Add, sum, value),
    }
}

/// A joined sum with the evaluations on a fluent among further ones.
fn joined_sum(mut sum: Option<Dec>, fluent: &[u8], evaluations: &[Evaluation]) -> Option<Dec>
    ensures { result ≡ with_parts sum (evaluations_on fluent.now evaluations.now) }
{
    'each: for evaluation in evaluations {
        if is_on(fluent, evaluation) {
            sum = further_part(evaluation.how, sum, evaluation.by);
        }
    }
    sum
}

fn value_after(
    evaluation: &Evaluation,
    old: Option<Dec>,
    fluent: &[u8],
    rest: &[Evaluation],
) -> Option<Dec>
    ensures { result ≡ value_from old (evaluation.now ∷ evaluations_on fluent.now rest.now) }
{
    match evaluation.how {
        Assign::Set => evaluation.by,
        Assign::Scale => combine(Op::Mul, old, evaluation.by),
        Assign::Up | Assign::Down => {
            let first = first_part(evaluation.how, evaluation.by);
            combine(Op::Add, old, joined_sum(first, fluent, rest))
        }
    }
}

/// The value of a fluent after all evaluations; none where a subvalue leaves the range.
fn new_value(old: Option<Dec>, fluent: &[u8], evaluations: &[Evaluation]) -> Option<Dec>
    ensures { result ≡ value_from old (evaluations_on fluent.now evaluations.now) }
{
    'each: for (place, evaluation) in evaluations.iter().enumerate() {
        if is_on(fluent, evaluation) {
            return value_after(evaluation, old, fluent, &evaluations[place + 1..]);
        }
    }
    old
}

/// The new value of each evaluation's fluent; none where a subvalue leaves the range.
pub(crate) fn new_values(
    alloc: Global,
    evaluations: &[Evaluation],
) -> Result<Option<List<Dec>>, NoMemory>
    ensures { IfOk result (λ values. values ≡ new_values evaluations.now evaluations.now) }
{
    let mut values = List::new(alloc);
    'each: for evaluation in evaluations {
        match new_value(evaluation.old, evaluation.fluent.as_slice(), evaluations) {
            Some(value) => values.push(value)?,
            None => return Ok(None),
        }
    }
    Ok(Some(values))
}
