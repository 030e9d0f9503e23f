//! Names in groups, each with one type.

ghost use Rattle.std.specs.Prelude.{◌≡◌, ◌++◌, OnOk, IfOk};
ghost use Rattle.pddl_trees.specs.TypedLists.{typed_as, untyped};
ghost use Rattle.pddl_declarations.specs.internal.Typing.{typed_of, with_type};

use num_ends::{NoMemory, Text};
use pddl_terms::{Name, Typed};
use pddl_trees::forms::name;
use std::alloc::Global;

/// The type of names that have none.
const OBJECT: &[u8; 6] = b"object";

/// Names with one type, or without a type.
#[derive(Drop)]
pub struct Group {
    pub names: Vec<Name>,
    pub kind: Option<Name>,
}

/// An equal name.
pub fn copy(alloc: Global, name: &Name) -> Result<Name, NoMemory>
    ensures { IfOk result (λ copy. copy ≡ name.now) }
{
    let text = Vec::from_slice(alloc, name.text.as_slice())?;
    Ok(Name {
        text: Text::from_vec(text),
        at: name.at,
    })
}

fn add_typed(
    alloc: Global,
    typed: &mut Vec<Typed>,
    names: Vec<Name>,
    kind: &Name,
) -> Result<(), NoMemory>
    ensures { OnOk result (typed.new.items ≡ typed.old.items ++ typed_as kind.now names.items) }
{
    'each: for name in names {
        let kind = copy(alloc, kind)?;
        typed.push(Typed { name, kind })?;
    }
    Ok(())
}

fn add_untyped(alloc: Global, typed: &mut Vec<Typed>, names: Vec<Name>) -> Result<(), NoMemory>
    ensures { OnOk result (typed.new.items ≡ typed.old.items ++ untyped names.items) }
{
    'each: for one in names {
        let kind = name(alloc, one.at, OBJECT)?;
        typed.push(Typed { name: one, kind })?;
    }
    Ok(())
}

fn add_group(alloc: Global, typed: &mut Vec<Typed>, group: Group) -> Result<(), NoMemory>
    ensures { OnOk result (typed.new.items ≡ typed.old.items ++ with_type group.kind group.names.items) }
{
    let Group { names, kind } = group;
    match kind {
        Some(kind) => add_typed(alloc, typed, names, &kind),
        None => add_untyped(alloc, typed, names),
    }
}

/// The names of groups in order, each with its type.
pub fn typed_of(alloc: Global, groups: Vec<Group>) -> Result<Vec<Typed>, NoMemory>
    ensures { IfOk result (λ typed. typed.items ≡ typed_of groups.items) }
{
    let mut typed = Vec::new(alloc);
    'each: for group in groups {
        add_group(alloc, &mut typed, group)?;
    }
    Ok(typed)
}
