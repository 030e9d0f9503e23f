//! The texts of atoms.

ghost use Rattle.std.specs.Prelude.{◌≡◌, ◌<◌, ◌++◌, ◌∷◌, IfOk, OnOk, flat_map, length};
ghost use Rattle.pddl_types.specs.Pairs.{objects_of};
ghost use Rattle.pddl_types.specs.WellFormed.{Each};
ghost use Rattle.static_facts.specs.Atoms.{names, object_text, text_of_atom};

use num_ends::{NoMemory, Text};
use pddl_types::Checked;
use std::alloc::Global;

#[tactic(auto, using(crate::proofs::Spelling::object_named))]
fn push_object(checked: &Checked, object: u32, text: &mut Vec<u8>) -> Result<(), NoMemory>
    requires known { object < length (objects_of checked.now) }
    ensures { OnOk result (text.new.items ≡ text.old.items ++ 32 ∷ object_text checked.now object) }
{
    let name = checked.object(object).name.text.as_slice();
    text.push(b' ')?;
    text.extend_from_slice(name)?;
    Ok(())
}

fn push_objects(checked: &Checked, objects: &[u32], text: &mut Vec<u8>) -> Result<(), NoMemory>
    requires known { Each (λ o. o < length (objects_of checked.now)) objects.now }
    ensures { OnOk result (text.new.items ≡ text.old.items ++ flat_map (λ o. 32 ∷ object_text checked.now o) objects.now) }
{
    'each: for object in objects {
        push_object(checked, *object, text)?;
    }
    Ok(())
}

/// The text of an atom, such as `(at truck depot)`, by the name of its predicate or function and the numbers of its objects.
#[tactic(auto, using(crate::proofs::Spelling::spelled))]
pub(crate) fn atom_text(
    alloc: Global,
    checked: &Checked,
    head: &[u8],
    objects: &[u32],
) -> Result<Text, NoMemory>
    requires known { Each (λ o. o < length (objects_of checked.now)) objects.now }
    ensures { IfOk result (λ text. text ≡ text_of_atom (head.now ∷ names checked.now objects.now)) }
{
    let mut text = Vec::new(alloc);
    text.push(b'(')?;
    text.extend_from_slice(head)?;
    push_objects(checked, objects, &mut text)?;
    text.push(b')')?;
    Ok(Text::from_vec(text))
}
