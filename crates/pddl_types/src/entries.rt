//! The faults of the initial state.

ghost use Rattle.std.specs.Prelude.{◌≡◌, ◌++◌, [], IfOk, OnOk, map, not};
ghost use Rattle.pddl_types.specs.Pairs.{fluent_of, written_text};
ghost use Rattle.pddl_types.specs.UseFaults.{facts_faults, fluents_faults, has_value, repeated_values, with_fluent};
ghost use Rattle.pddl_types.specs.internal.Notes.{Noted};

use crate::atoms::{Scope, argument_name, note_atom};
use crate::faults::{CheckKind, Side};
use crate::first::Notes;
use crate::pairs::Sort;
use indexmap::IndexSet;
use num_ends::{Dec, NoMemory};
use pddl_terms::{Arg, Atom};
use std::alloc::Global;
use std::marker::Model;

/// Fluents so far, each once, by their functions and arguments.
#[derive(Drop)]
struct Valued<'a> {
    fluents: IndexSet<Vec<&'a [u8]>>,
}

impl<'a> Model for Valued<'a> {
    ghost use Rattle.std.specs.Prelude.{List, ℕ, map};

    ghost Value = { List (List (List ℕ)) };

    ghost view = { λ v. map (λ f. map (λ t. t.now) f.items) v.fluents.keys };
}

impl<'a> Valued<'a> {
    fn new(alloc: Global) -> Valued<'a>
        ensures { result ≡ [] }
    {
        Valued {
            fluents: IndexSet::new(alloc),
        }
    }

    // Adds a fluent, and tells whether it is new.
    fn add(&mut self, fluent: Vec<&'a [u8]>) -> Result<bool, NoMemory>
        ensures new { IfOk result (λ new. new ≡ not (has_value (map (λ t. t.now) fluent.entry.items) self.old)) }
        ensures after { OnOk result (self.new ≡ with_fluent self.old (map (λ t. t.now) fluent.entry.items)) }
    {
        let new = self.fluents.insert(fluent)?;
        Ok(new)
    }
}

fn push_arguments<'a>(args: &'a [Arg], texts: &mut Vec<&'a [u8]>) -> Result<(), NoMemory>
    ensures { OnOk result (map (λ t. t.now) texts.new.items ≡ map (λ t. t.now) texts.old.items ++ map written_text args.now) }
{
    'each: for arg in args {
        texts.push(argument_name(arg).text.as_slice())?;
    }
    Ok(())
}

// A fluent's function and arguments.
fn fluent_of<'a>(alloc: Global, atom: &'a Atom) -> Result<Vec<&'a [u8]>, NoMemory>
    ensures { IfOk result (λ texts. map (λ t. t.now) texts.items ≡ fluent_of atom.now) }
{
    let mut texts = Vec::new(alloc);
    texts.push(atom.head.text.as_slice())?;
    push_arguments(atom.args.as_slice(), &mut texts)?;
    Ok(texts)
}

/// Notes the faults of the facts.
#[tactic(auto, unfolding(crate::specs::UseFaults::facts_faults))]
pub(crate) fn note_facts(
    alloc: Global,
    scope: &Scope,
    facts: &[Atom],
    notes: &mut Notes,
) -> Result<(), NoMemory>
    ensures { OnOk result (Noted notes.old notes.new (facts_faults scope.now.named.now scope.now.side scope.now.params.now facts.now)) }
{
    'each: for fact in facts {
        note_atom(alloc, scope, Sort::Predicate, fact, notes)?;
    }
    Ok(())
}

/// Notes the faults of the fluents with values.
#[tactic(auto, unfolding(crate::specs::UseFaults::fluents_faults))]
pub(crate) fn note_fluents(
    alloc: Global,
    scope: &Scope,
    values: &[(Atom, Dec)],
    notes: &mut Notes,
) -> Result<(), NoMemory>
    ensures { OnOk result (Noted notes.old notes.new (fluents_faults scope.now.named.now scope.now.side scope.now.params.now values.now)) }
{
    'each: for value in values {
        note_atom(alloc, scope, Sort::Function, &value.0, notes)?;
    }
    Ok(())
}

/// Notes the fluents that are given a value again.
pub(crate) fn note_repeated_values(
    alloc: Global,
    values: &[(Atom, Dec)],
    notes: &mut Notes,
) -> Result<(), NoMemory>
    ensures { OnOk result (Noted notes.old notes.new (repeated_values [] values.now)) }
{
    let mut valued = Valued::new(alloc);
    'each: for value in values {
        let fluent = fluent_of(alloc, &value.0)?;
        if !valued.add(fluent)? {
            notes.note(alloc, Side::Problem, CheckKind::Duplicate, &value.0.head)?;
        }
    }
    Ok(())
}
