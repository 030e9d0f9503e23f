//! The texts of atoms as they are written.

ghost use Rattle.std.specs.Prelude.{◌≡◌, ◌++◌, [], ◌∷◌, IfOk, OnOk, flat_map};
ghost use Rattle.static_facts.specs.Atoms.{atom_of, text_of_atom};
ghost use Rattle.pddl_types.specs.Pairs.{written_text};

use num_ends::{NoMemory, Text};
use pddl_terms::{Arg, Atom};
use std::alloc::Global;

fn name_of(arg: &Arg) -> &[u8]
    ensures { result.now ≡ written_text arg.now }
{
    match arg {
        Arg::Var(name) => name.text.as_slice(),
        Arg::Obj(name) => name.text.as_slice(),
    }
}

fn push_names(text: &mut Vec<u8>, args: &[Arg]) -> Result<(), NoMemory>
    ensures { OnOk result (text.new.items ≡ text.old.items ++ flat_map (λ a. 32 ∷ written_text a) args.now) }
{
    'each: for arg in args {
        text.push(b' ')?;
        text.extend_from_slice(name_of(arg))?;
    }
    Ok(())
}

/// The text of an atom without parameters, such as `(at truck depot)`.
pub fn written_text_of(alloc: Global, atom: &Atom) -> Result<Text, NoMemory>
    ensures { IfOk result (λ text. text ≡ text_of_atom (atom_of [] [] atom.now)) }
{
    let mut text = Vec::new(alloc);
    text.push(b'(')?;
    text.extend_from_slice(atom.head.text.as_slice())?;
    push_names(&mut text, atom.args.as_slice())?;
    text.push(b')')?;
    Ok(Text::from_vec(text))
}
