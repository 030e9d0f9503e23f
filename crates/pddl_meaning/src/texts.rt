//! The texts of ground facts and fluents.

ghost use Rattle.std.specs.Prelude.{◌≡◌, ◌∷◌, ◌++◌, IfOk, OnOk, flat_map};
ghost use Rattle.pddl_terms.specs.Texts.{argument_text, ground_text, variable_text};

use crate::world::World;
use num_ends::{NoMemory, Text};
use pddl_terms::{Arg, Atom, Typed};
use std::alloc::Global;

/// A world that is read, and what the variables of an action stand for there: the parameters and, place by place, the
/// arguments.
#[derive(Clone, Copy)]
pub(crate) struct Binding<'a> {
    pub(crate) world: &'a World,
    pub(crate) params: &'a [Typed],
    pub(crate) args: &'a [Text],
}

/// What a variable stands for: the argument of the first parameter with its name, and else itself.
fn variable_text<'a>(params: &[Typed], args: &'a [Text], name: &'a [u8]) -> &'a [u8]
    ensures { result.now ≡ variable_text params.now args.now name.now }
{
    let mut place = 0;
    'each: while place < params.len() && place < args.len() {
        if name == params[place].name.text.as_slice() {
            return args[place].as_slice();
        }
        place += 1;
    }
    name
}

/// The text of the object that an argument stands for.
pub(crate) fn argument_text<'a>(binding: &Binding<'a>, arg: &'a Arg) -> &'a [u8]
    ensures { result.now ≡ argument_text binding.now.params.now binding.now.args.now arg.now }
{
    match arg {
        Arg::Var(name) => variable_text(binding.params, binding.args, name.text.as_slice()),
        Arg::Obj(name) => name.text.as_slice(),
    }
}

fn append_arguments(binding: &Binding, args: &[Arg], out: &mut Vec<u8>) -> Result<(), NoMemory>
    ensures { OnOk result (out.new.items ≡ out.old.items ++ flat_map (λ a. 32 ∷ argument_text binding.now.params.now binding.now.args.now a) args.now) }
{
    'each: for arg in args {
        out.push(b' ')?;
        out.extend_from_slice(argument_text(&*binding, arg))?;
    }
    Ok(())
}

/// Puts the text of an atom into a buffer, in the place of what was there.
#[tactic(auto, using(crate::proofs::Spelled::spelled))]
pub(crate) fn write_ground_text(
    binding: &Binding,
    atom: &Atom,
    buffer: &mut Vec<u8>,
) -> Result<(), NoMemory>
    ensures { OnOk result (buffer.new.items ≡ ground_text binding.now.params.now binding.now.args.now atom.now) }
{
    buffer.clear();
    buffer.push(b'(')?;
    buffer.extend_from_slice(atom.head.text.as_slice())?;
    append_arguments(binding, atom.args.as_slice(), buffer)?;
    buffer.push(b')')?;
    Ok(())
}

/// The text of an atom.
pub(crate) fn ground_text(
    alloc: Global,
    binding: &Binding,
    atom: &Atom,
) -> Result<Vec<u8>, NoMemory>
    ensures { IfOk result (λ text. text.items ≡ ground_text binding.now.params.now binding.now.args.now atom.now) }
{
    let mut text = Vec::new(alloc);
    write_ground_text(binding, atom, &mut text)?;
    Ok(text)
}
