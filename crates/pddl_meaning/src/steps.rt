//! The steps of actions.

ghost use Rattle.std.specs.Prelude.{◌≡◌, IfOk, OnOk, map};
ghost use Rattle.std.specs.Option.{option_copied};
ghost use Rattle.pddl_meaning.specs.internal.Computed.{evaluation_of, effects_answer, over_answer, ready_answer, stepped_by};
ghost use Rattle.pddl_meaning.specs.Effects.{numeric_effects};
ghost use Rattle.pddl_meaning.specs.Steps.{all_fit, fits, ranged_action, ranged_step, schema_named, without_world, world_after};

use crate::answers::{Advanced, Holds, Stepped};
use crate::conditions::{is_defined, truth};
use crate::effects::{Evaluation, added_texts, deleted_texts, new_values, ready_evaluations};
use crate::literals::literals_true;
use crate::texts::Binding;
use crate::world::World;
use crate::writes::{Prepared, Writes, copy_of, write};
use num_ends::{List, NoMemory, Text};
use pddl_terms::{Cond, Effect, Schema, Typed};
use pddl_types::Checked;
use std::alloc::Global;

// ---- legal steps

/// The action with a name.
fn schema_named<'a>(checked: &'a Checked, name: &[u8]) -> Option<&'a Schema>
    ensures { option_copied result ≡ schema_named checked.now name.now }
{
    match checked.schema_number(name) {
        Some(number) => Some(&checked.domain().schemas.as_slice()[number as usize]),
        None => None,
    }
}

/// Whether an argument is an object that fits a parameter.
fn fits(checked: &Checked, param: &Typed, arg: &[u8]) -> bool
    ensures { result ≡ fits checked.now param.now arg.now }
{
    match checked.object_number(arg) {
        Some(object) => checked.fits(object, &param.kind),
        None => false,
    }
}

/// Whether there are as many arguments as parameters, and each fits.
fn all_fit(checked: &Checked, params: &[Typed], args: &[Text]) -> bool
    ensures { result ≡ all_fit checked.now params.now args.now }
{
    let mut place = 0;
    'each: while place < params.len() && place < args.len() {
        if !fits(checked, &params[place], args[place].as_slice()) {
            return false;
        }
        place += 1;
    }
    params.len() == args.len()
}

// ---- actions

/// What effects do whose evaluations are known.
fn prepare_writes(
    alloc: Global,
    binding: &Binding,
    effects: &[Effect],
    evaluations: List<Evaluation>,
) -> Result<Prepared, NoMemory>
    requires { evaluations ≡ map (evaluation_of binding.now.params.now binding.now.args.now binding.now.world.now) (numeric_effects binding.now.params.now binding.now.args.now effects.now) }
    ensures { IfOk result (λ r. stepped_by binding.now.world.now r ≡ effects_answer binding.now.params.now binding.now.args.now binding.now.world.now effects.now) }
{
    match new_values(alloc, evaluations.as_slice())? {
        None => Ok(Prepared::Over),
        Some(news) => {
            let deleted = deleted_texts(alloc, binding, effects)?;
            let added = added_texts(alloc, binding, effects)?;
            Ok(Prepared::Ready(Writes {
                deleted,
                added,
                evaluations,
                news,
            }))
        }
    }
}

/// What effects do where the precondition is true.
fn prepare_effects(
    alloc: Global,
    binding: &Binding,
    effects: &[Effect],
    buffer: &mut Vec<u8>,
) -> Result<Prepared, NoMemory>
    ensures { IfOk result (λ r. stepped_by binding.now.world.now r ≡ ready_answer binding.now.params.now binding.now.args.now binding.now.world.now effects.now) }
{
    match ready_evaluations(alloc, binding, effects, buffer)? {
        Some(evaluations) => prepare_writes(alloc, binding, effects, evaluations),
        None => Ok(Prepared::Blocked),
    }
}

/// What an action does whose precondition leaves the range: something that is looked at before may block it.
fn prepare_over(
    alloc: Global,
    binding: &Binding,
    pre: &Cond,
    effects: &[Effect],
    buffer: &mut Vec<u8>,
) -> Result<Prepared, NoMemory>
    ensures { IfOk result (λ r. stepped_by binding.now.world.now r ≡ over_answer binding.now.params.now binding.now.args.now binding.now.world.now pre.now effects.now) }
{
    let defined = is_defined(binding, pre, buffer)?;
    let ready = ready_evaluations(alloc, binding, effects, buffer)?.is_some();
    let literals = literals_true(binding, pre, true, buffer)?;
    if defined && ready && literals {
        Ok(Prepared::Over)
    } else {
        Ok(Prepared::Blocked)
    }
}

/// What an action does whose arguments fit.
#[tactic(auto, using(crate::proofs::Actions::false_blocks, crate::proofs::Actions::true_is_ready, crate::proofs::Actions::over_is_settled))]
fn prepare_action(
    alloc: Global,
    world: &World,
    schema: &Schema,
    args: &[Text],
) -> Result<Prepared, NoMemory>
    ensures { IfOk result (λ r. stepped_by world.now r ≡ ranged_action schema.now args.now world.now) }
{
    let binding = Binding {
        world,
        params: schema.params.as_slice(),
        args,
    };
    let effects = schema.effects.as_slice();
    let mut buffer = Vec::new(alloc);
    match truth(&binding, &schema.pre, &mut buffer)? {
        Holds::Yes => prepare_effects(alloc, &binding, effects, &mut buffer),
        Holds::No => Ok(Prepared::Blocked),
        Holds::Over => prepare_over(alloc, &binding, &schema.pre, effects, &mut buffer),
    }
}

/// What a name with arguments does.
#[tactic(auto, unfolding(crate::specs::Steps::ranged_step))]
fn prepare(
    alloc: Global,
    checked: &Checked,
    world: &World,
    name: &[u8],
    args: &[Text],
) -> Result<Prepared, NoMemory>
    ensures { IfOk result (λ r. stepped_by world.now r ≡ ranged_step checked.now world.now name.now args.now) }
{
    let Some(schema) = schema_named(checked, name) else {
        return Ok(Prepared::Illegal);
    };
    if !all_fit(checked, schema.params.as_slice(), args) {
        return Ok(Prepared::Illegal);
    }
    prepare_action(alloc, world, schema, args)
}

// ---- steps

impl World {
    /// Makes a step in place: an action, by its name, with objects as its arguments. The effects are made all at once, and a
    /// fact that is both deleted and added is true. Nothing is copied or looked through but what the action reads and
    /// changes.
    ///
    /// At each answer but `Next` the world is as before. Without memory it is as before too, or has any part of the change.
    pub fn advance(
        &mut self,
        alloc: Global,
        checked: &Checked,
        name: &[u8],
        args: &[Text],
    ) -> Result<Advanced, NoMemory>
        ensures answer { IfOk result (λ a. a ≡ without_world (ranged_step checked.now self.old name.now args.now)) }
        ensures after { OnOk result (self.new ≡ world_after self.old (ranged_step checked.now self.old name.now args.now)) }
    {
        match prepare(alloc, checked, self, name, args)? {
            Prepared::Ready(writes) => {
                write(self, writes)?;
                Ok(Advanced::Next)
            }
            Prepared::Blocked => Ok(Advanced::Blocked),
            Prepared::Illegal => Ok(Advanced::Illegal),
            Prepared::Over => Ok(Advanced::Over),
        }
    }
}

/// What an action, by its name, does with objects as its arguments in a world, which stays as it is. The next world is a
/// changed copy; `World::advance` makes the step in place.
pub fn step(
    alloc: Global,
    checked: &Checked,
    world: &World,
    name: &[u8],
    args: &[Text],
) -> Result<Stepped, NoMemory>
    ensures { IfOk result (λ r. r ≡ ranged_step checked.now world.now name.now args.now) }
{
    match prepare(alloc, checked, world, name, args)? {
        Prepared::Ready(writes) => {
            let mut next = copy_of(world)?;
            write(&mut next, writes)?;
            Ok(Stepped::Next(next))
        }
        Prepared::Blocked => Ok(Stepped::Blocked),
        Prepared::Illegal => Ok(Stepped::Illegal),
        Prepared::Over => Ok(Stepped::Over),
    }
}
