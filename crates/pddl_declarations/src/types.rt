//! The types of a domain.

ghost use Rattle.std.specs.Prelude.{codes, ◌≡◌, [], ◌∷◌, ◌++◌, None, bytes_eq, flat_map, map, not, OnOk, IfOk, if◌then◌else◌};
ghost use Rattle.pddl_trees.specs.Faults.{all_noted};
ghost use Rattle.pddl_trees.specs.Trees.{forms_of};
ghost use Rattle.pddl_trees.specs.Forms.{shape_at};
ghost use Rattle.pddl_trees.specs.Declarations.{implied_types, names_of, number_faults, types_list, number_faults_if};
ghost use Rattle.pddl_declarations.specs.internal.Typing.{AreSameWords, typed_of, with_type};
ghost use Rattle.pddl_trees.specs.Words.{is_among};

use crate::groups::{Group, copy, typed_of};
use crate::kinds::Kind;
use crate::typed::groups;
use indexmap::IndexSet;
use num_ends::{List, NoMemory, Text};
use pddl_terms::{Name, Typed};
use pddl_trees::faults::Reason;
use pddl_trees::forms::name;
use pddl_trees::notes::Notes;
use sexp_text::Tree;
use std::alloc::Global;

/// The type that is always there.
const OBJECT: &[u8; 6] = b"object";

/// The type of numbers, which can't be declared.
const NUMBER: &[u8; 6] = b"number";

fn is_text(text: &Text, word: &[u8]) -> bool
    ensures { result ≡ bytes_eq text.now word.now }
{
    text.as_slice() == word
}

fn group_has_number(group: &Group) -> bool
    ensures { result ≡ is_among (codes "number") (names_of (with_type group.now.kind group.now.names.items)) }
{
    'each: for name in &group.names {
        if is_text(&name.text, NUMBER) {
            return true;
        }
    }
    false
}

fn has_number(groups: &[Group]) -> bool
    ensures { result ≡ is_among (codes "number") (names_of (typed_of groups.now)) }
{
    'each: for group in groups {
        if group_has_number(group) {
            return true;
        }
    }
    false
}

// Notes a name that is `number`.
fn note_number(name: &Name, notes: &mut Notes)
    ensures { notes.new.first ≡ all_noted notes.old.first (if bytes_eq name.now.text (codes "number") then shape_at name.now.at ∷ [] else []) }
{
    if is_text(&name.text, NUMBER) {
        notes.note(name.at, Reason::Shape);
    }
}

// Notes a name of a group that is `number`, and its type where that is, but isn't declared itself.
#[tactic(auto, using(pddl_trees::proofs::Noted::noted_append))]
fn note_typed(named: bool, name: &Name, kind: &Option<Name>, notes: &mut Notes)
    ensures { notes.new.first ≡ all_noted notes.old.first (flat_map (number_faults_if named) (with_type kind.now (name.now ∷ []))) }
{
    note_number(name, notes);
    match kind {
        Some(kind) if !named => note_number(kind, notes),
        _ => {}
    }
}

// Notes the names of a group that are `number`, and its type where that is, but isn't declared itself.
fn note_group(named: bool, group: &Group, notes: &mut Notes)
    ensures { notes.new.first ≡ all_noted notes.old.first (flat_map (number_faults_if named) (with_type group.now.kind group.now.names.items)) }
{
    'each: for name in &group.names {
        note_typed(named, name, &group.kind, notes);
    }
}

// Notes `number` where it is declared as a type.
fn note_numbers(groups: &[Group], notes: &mut Notes)
    ensures { notes.new.first ≡ all_noted notes.old.first (flat_map (number_faults (names_of (typed_of groups.now))) (typed_of groups.now)) }
{
    let named = has_number(groups);
    'each: for group in groups {
        note_group(named, group, notes);
    }
}

// Adds a word where it isn't known, and answers whether it wasn't.
fn add<'a>(known: &mut IndexSet<&'a [u8]>, word: &'a [u8]) -> Result<bool, NoMemory>
    ensures added { IfOk result (λ added. added ≡ not (is_among word.now (map (λ w. w.now) known.old.keys))) }
    ensures words { OnOk result (map (λ w. w.now) known.new.keys
        ≡ (if is_among word.now (map (λ w. w.now) known.old.keys) then map (λ w. w.now) known.old.keys else map (λ w. w.now) known.old.keys ++ word.now ∷ [])) }
{
    let added = known.insert(word)?;
    Ok(added)
}

// Adds the type of a name to those that are implied, where it isn't known.
fn imply<'a>(
    alloc: Global,
    known: &mut IndexSet<&'a [u8]>,
    implied: &mut Vec<Typed>,
    one: &'a Typed,
) -> Result<(), NoMemory>
    ensures { OnOk result ((ts : _) → implied.new.items ++ implied_types (map (λ w. w.now) known.new.keys) ts
        ≡ implied.old.items ++ implied_types (map (λ w. w.now) known.old.keys) (one.now ∷ ts)) }
{
    let kind = &one.kind;
    if is_text(&kind.text, OBJECT) || !add(known, kind.text.as_slice())? {
        return Ok(());
    }
    implied.push(Typed {
        name: copy(alloc, kind)?,
        kind: name(alloc, kind.at, OBJECT)?,
    })?;
    Ok(())
}

// The names of types.
fn known_names<'a>(alloc: Global, types: &'a [Typed]) -> Result<IndexSet<&'a [u8]>, NoMemory>
    ensures { IfOk result (λ known. AreSameWords (map (λ w. w.now) known.keys) (names_of types.now)) }
{
    let mut known = IndexSet::with_capacity(alloc, types.len())?;
    'each: for one in types {
        add(&mut known, one.name.text.as_slice())?;
    }
    Ok(known)
}

// The types of types that aren't declared themselves.
fn implied_types(alloc: Global, types: &[Typed]) -> Result<Vec<Typed>, NoMemory>
    ensures { IfOk result (λ implied. implied.items ≡ implied_types (names_of types.now) types.now) }
{
    let mut known = known_names(alloc, types)?;
    let mut implied = Vec::new(alloc);
    'each: for one in types {
        imply(alloc, &mut known, &mut implied, one)?;
    }
    Ok(implied)
}

/// The types of a list at a position, and behind them those that stand only as the type of others; what doesn't fit is
/// noted. Where a fault is noted, here or before, the types aren't given.
pub fn types_list(
    alloc: Global,
    text: &[u8],
    at: u32,
    trees: &[Tree],
    notes: &mut Notes,
) -> Result<List<Typed>, NoMemory>
    ensures faults { OnOk result (notes.new.first ≡ all_noted notes.old.first (types_list at (forms_of text.now trees.now)).faults) }
    ensures items { IfOk result (λ types. notes.new.first ≡ None → types ≡ (types_list at (forms_of text.now trees.now)).items) }
{
    let groups = groups(alloc, text, Kind::Names, at, trees, notes)?;
    note_numbers(&groups, notes);
    if notes.first.is_some() {
        return Ok(List::new(alloc));
    }
    let mut types = typed_of(alloc, groups)?;
    let mut implied = implied_types(alloc, types.as_slice())?;
    types.append(&mut implied)?;
    Ok(List::from_vec(types))
}
