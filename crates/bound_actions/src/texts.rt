//! The texts of actions and fluents.

ghost use Rattle.std.specs.Prelude.{◌≡◌, ◌<◌, ◌++◌, ◌∷◌, IfOk, OnOk, flat_map, length};
ghost use Rattle.pddl_terms.specs.Texts.{argument_text, variable_text};
ghost use Rattle.pddl_types.specs.Pairs.{objects_of};
ghost use Rattle.pddl_types.specs.WellFormed.{Each};
ghost use Rattle.static_facts.specs.Atoms.{atom_of, names, object_text, text_of_atom};
ghost use Rattle.ground_meaning.specs.Actions.{action_text};

use num_ends::{NoMemory, Text};
use pddl_terms::{Arg, Atom, Schema, Typed};
use pddl_types::Checked;
use std::alloc::Global;

/// A pair, and the parameters of an action bound to objects.
#[derive(Clone, Copy)]
pub struct Bound<'a> {
    pub checked: &'a Checked,
    pub params: &'a [Typed],
    pub objects: &'a [u32],
}

#[tactic(auto, using(crate::proofs::Spelling::object_named))]
fn object_text(checked: &Checked, object: u32) -> &[u8]
    requires known { object < length (objects_of checked.now) }
    ensures { result.now ≡ object_text checked.now object }
{
    checked.object(object).name.text.as_slice()
}

fn push_object(checked: &Checked, object: u32, text: &mut Vec<u8>) -> Result<(), NoMemory>
    requires known { object < length (objects_of checked.now) }
    ensures { OnOk result (text.new.items ≡ text.old.items ++ 32 ∷ object_text checked.now object) }
{
    text.push(b' ')?;
    text.extend_from_slice(object_text(checked, object))?;
    Ok(())
}

fn push_objects(checked: &Checked, objects: &[u32], text: &mut Vec<u8>) -> Result<(), NoMemory>
    requires known { Each (λ o. o < length (objects_of checked.now)) objects.now }
    ensures { OnOk result (text.new.items ≡ text.old.items ++ flat_map (λ o. 32 ∷ object_text checked.now o) objects.now) }
{
    'each: for object in objects {
        push_object(checked, *object, text)?;
    }
    Ok(())
}

/// The text of an action, such as `(move a b)`.
#[tactic(auto, using(crate::proofs::Spelling::action_spelled))]
pub fn action_text(
    alloc: Global,
    checked: &Checked,
    schema: &Schema,
    objects: &[u32],
) -> Result<Text, NoMemory>
    requires known { Each (λ o. o < length (objects_of checked.now)) objects.now }
    ensures { IfOk result (λ text. text ≡ action_text schema.now (names checked.now objects.now)) }
{
    let mut text = Vec::new(alloc);
    text.push(b'(')?;
    text.extend_from_slice(schema.name.text.as_slice())?;
    push_objects(checked, objects, &mut text)?;
    text.push(b')')?;
    Ok(Text::from_vec(text))
}

fn variable_text<'b>(bound: &Bound<'b>, name: &'b [u8]) -> &'b [u8]
    requires known { Each (λ o. o < length (objects_of bound.now.checked.now)) bound.now.objects.now }
    ensures { result.now ≡ variable_text bound.now.params.now (names bound.now.checked.now bound.now.objects.now) name.now }
{
    let mut place = 0;
    'each: while place < bound.params.len() && place < bound.objects.len() {
        if name == bound.params[place].name.text.as_slice() {
            return object_text(bound.checked, bound.objects[place]);
        }
        place += 1;
    }
    name
}

fn argument_text<'b>(bound: &Bound<'b>, arg: &'b Arg) -> &'b [u8]
    requires known { Each (λ o. o < length (objects_of bound.now.checked.now)) bound.now.objects.now }
    ensures { result.now ≡ argument_text bound.now.params.now (names bound.now.checked.now bound.now.objects.now) arg.now }
{
    match arg {
        Arg::Var(name) => variable_text(bound, name.text.as_slice()),
        Arg::Obj(name) => name.text.as_slice(),
    }
}

fn push_arguments(bound: &Bound, args: &[Arg], text: &mut Vec<u8>) -> Result<(), NoMemory>
    requires known { Each (λ o. o < length (objects_of bound.now.checked.now)) bound.now.objects.now }
    ensures { OnOk result (text.new.items ≡ text.old.items ++ flat_map (λ a. 32 ∷ argument_text bound.now.params.now (names bound.now.checked.now bound.now.objects.now) a) args.now) }
{
    'each: for arg in args {
        text.push(b' ')?;
        text.extend_from_slice(argument_text(&*bound, arg))?;
    }
    Ok(())
}

/// The text of an atom with its parameters bound to objects, such as `(fuel truck)`.
#[tactic(auto, using(crate::proofs::Spelling::atom_spelled))]
pub fn atom_text(alloc: Global, bound: &Bound, atom: &Atom) -> Result<Text, NoMemory>
    requires known { Each (λ o. o < length (objects_of bound.now.checked.now)) bound.now.objects.now }
    ensures { IfOk result (λ text. text ≡ text_of_atom (atom_of bound.now.params.now (names bound.now.checked.now bound.now.objects.now) atom.now)) }
{
    let mut text = Vec::new(alloc);
    text.push(b'(')?;
    text.extend_from_slice(atom.head.text.as_slice())?;
    push_arguments(bound, atom.args.as_slice(), &mut text)?;
    text.push(b')')?;
    Ok(Text::from_vec(text))
}
