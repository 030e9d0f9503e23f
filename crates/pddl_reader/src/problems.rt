//! The sections of a problem read as data.

ghost use Rattle.std.specs.Prelude.{◌≡◌, ◌++◌, IfOk, None, OnOk, drop, flat_map, take};
ghost use Rattle.std.specs.List.{filter_map};
ghost use Rattle.pddl_trees.specs.Faults.{all_noted};
ghost use Rattle.pddl_trees.specs.Forms.{both};
ghost use Rattle.pddl_reader.specs.internal.ProblemParts.{problem_of_parts};
ghost use Rattle.pddl_trees.specs.Sections.{problem_sections, repeated_sections, sections_of, word_and_repeat_faults};
ghost use Rattle.pddl_trees.specs.Leaves.{all_leaves};
ghost use Rattle.pddl_trees.specs.Problems.{domain_name_faults, needed_section, problem_in, problem_leaves, problem_parts, problem_tree, section_leaves};
ghost use Rattle.pddl_trees.specs.Initial.{entries_in};
ghost use Rattle.pddl_trees.specs.Frames.{further_trees};
ghost use Rattle.pddl_trees.specs.Goals.{goal_in, metric_in};

use crate::domains::{behind_frame, note_required, objects};
use crate::frames::frame;
use crate::goals::{goal, note_metric};
use crate::initial::{Initial, entries};
use num_ends::{List, NoMemory};
use pddl_declarations::sections::{Side, content_of, named, note_repeats, section_named};
use pddl_terms::{Cond, Name, Problem, Typed};
use pddl_trees::faults::Reason;
use pddl_trees::forms::{note_extra, position};
use pddl_trees::leaves::{note_all_leaves, note_leaves};
use pddl_trees::names::{is_headed, only_name, parts_of};
use pddl_trees::notes::Notes;
use sexp_text::Tree;
use std::alloc::Global;

#[tactic(auto, using(pddl_trees::proofs::Noted::noted_append))]
fn note_problem_repeats(text: &[u8], sections: &[Tree], notes: &mut Notes)
    ensures { notes.new.first ≡ all_noted notes.old.first (repeated_sections text.now problem_sections sections.now) }
{
    note_repeats(text, sections, b":domain", notes);
    note_repeats(text, sections, b":requirements", notes);
    note_repeats(text, sections, b":objects", notes);
    note_repeats(text, sections, b":init", notes);
    note_repeats(text, sections, b":goal", notes);
    note_repeats(text, sections, b":metric", notes);
}

// What is no section of a problem, or stands a second time.
#[tactic(auto, using(pddl_trees::proofs::Noted::noted_append))]
fn note_problem_sections(text: &[u8], sections: &[Tree], notes: &mut Notes)
    ensures { notes.new.first ≡ all_noted notes.old.first (word_and_repeat_faults text.now problem_sections sections.now) }
{
    Side::Problem.note_sections(text, sections, notes);
    note_problem_repeats(text, sections, notes);
}

// A section that must be there, of a list at this position.
fn note_needed(text: &[u8], at: u32, word: &[u8], sections: &[Tree], notes: &mut Notes)
    ensures { notes.new.first ≡ all_noted notes.old.first (needed_section text.now at word.now sections.now) }
{
    if section_named(text, sections, word).is_none() {
        notes.note(at, Reason::Shape);
    }
}

// The name of the problem's domain, which isn't compared.
fn note_domain_name(
    alloc: Global,
    text: &[u8],
    sections: &[Tree],
    notes: &mut Notes,
) -> Result<(), NoMemory>
    ensures { OnOk result (notes.new.first ≡ all_noted notes.old.first (domain_name_faults text.now sections.now)) }
{
    match section_named(text, sections, b":domain") {
        None => {}
        Some(section) => {
            only_name(alloc, text, position(section), content_of(section), notes)?;
        }
    }
    Ok(())
}

fn initial(
    alloc: Global,
    text: &[u8],
    sections: &[Tree],
    notes: &mut Notes,
) -> Result<Initial, NoMemory>
    ensures faults { OnOk result (notes.new.first ≡ all_noted notes.old.first (flat_map (λ e. e.faults) (entries_in text.now sections.now))) }
    ensures facts { IfOk result (λ said. said.facts ≡ filter_map (λ e. e.fact) (entries_in text.now sections.now)) }
    ensures values { IfOk result (λ said. said.values ≡ filter_map (λ e. e.value) (entries_in text.now sections.now)) }
{
    let (_, content) = named(text, sections, b":init");
    entries(alloc, text, content, notes)
}

fn goal_of(
    alloc: Global,
    text: &[u8],
    sections: &[Tree],
    notes: &mut Notes,
) -> Result<Option<Cond>, NoMemory>
    ensures faults { OnOk result (notes.new.first ≡ all_noted notes.old.first (goal_in text.now sections.now).faults) }
    ensures value { IfOk result (λ cond. notes.new.first ≡ None → cond ≡ (goal_in text.now sections.now).value) }
{
    match section_named(text, sections, b":goal") {
        None => Ok(None),
        Some(section) => goal(alloc, text, position(section), content_of(section), notes),
    }
}

fn note_metric_of(text: &[u8], sections: &[Tree], notes: &mut Notes)
    ensures { notes.new.first ≡ all_noted notes.old.first (metric_in text.now sections.now) }
{
    match section_named(text, sections, b":metric") {
        None => {}
        Some(section) => note_metric(text, position(section), content_of(section), notes),
    }
}

fn with_parts(
    name: Option<Name>,
    objects: List<Typed>,
    initial: Initial,
    goal: Option<Cond>,
) -> Option<Problem>
    ensures { result ≡ both (λ n g. record { name = n; objects = objects; facts = initial.facts; values = initial.values; goal = g }) name goal }
{
    match (name, goal) {
        (Some(name), Some(goal)) => {
            let Initial { facts, values } = initial;
            Some(Problem {
                name,
                objects,
                facts,
                values,
                goal,
            })
        }
        _ => None,
    }
}

// The parts of `(define (problem NAME) section ..)`, a list at this position with a part at least.
fn problem_of_parts(
    alloc: Global,
    text: &[u8],
    at: u32,
    parts: &[Tree],
    notes: &mut Notes,
) -> Result<Option<Problem>, NoMemory>
    ensures faults { OnOk result (notes.new.first ≡ all_noted notes.old.first (problem_of_parts text.now at parts.now).faults) }
    ensures value { IfOk result (λ problem. notes.new.first ≡ None → problem ≡ (problem_of_parts text.now at parts.now).value) }
{
    let name = frame(alloc, text, b"problem", at, parts, notes)?;
    let sections = behind_frame(parts);
    note_problem_sections(text, sections, notes);
    note_required(text, sections, notes);
    note_needed(text, at, b":init", sections, notes);
    note_needed(text, at, b":goal", sections, notes);
    note_domain_name(alloc, text, sections, notes)?;
    let objects = objects(alloc, text, b":objects", sections, notes)?;
    let initial = initial(alloc, text, sections, notes)?;
    let goal = goal_of(alloc, text, sections, notes)?;
    note_metric_of(text, sections, notes);
    Ok(with_parts(name, objects, initial, goal))
}

fn problem_list(
    alloc: Global,
    text: &[u8],
    at: u32,
    parts: &[Tree],
    notes: &mut Notes,
) -> Result<Option<Problem>, NoMemory>
    ensures faults { OnOk result (notes.new.first ≡ all_noted notes.old.first (problem_parts text.now at parts.now).faults) }
    ensures value { IfOk result (λ problem. notes.new.first ≡ None → problem ≡ (problem_parts text.now at parts.now).value) }
{
    match parts {
        [] => {
            notes.note(at, Reason::Shape);
            Ok(None)
        }
        [_, ..] => problem_of_parts(alloc, text, at, parts, notes),
    }
}

fn problem_tree(
    alloc: Global,
    text: &[u8],
    tree: &Tree,
    notes: &mut Notes,
) -> Result<Option<Problem>, NoMemory>
    ensures faults { OnOk result (notes.new.first ≡ all_noted notes.old.first (problem_tree text.now tree.now).faults) }
    ensures value { IfOk result (λ problem. notes.new.first ≡ None → problem ≡ (problem_tree text.now tree.now).value) }
{
    match parts_of(tree) {
        None => {
            notes.note(position(tree), Reason::Shape);
            Ok(None)
        }
        Some(parts) => problem_list(alloc, text, position(tree), parts, notes),
    }
}

// The leaves of a metric but for its tree.
#[tactic(auto, using(pddl_trees::proofs::Walks::noted_after))]
fn note_metric_leaves(text: &[u8], parts: &[Tree], notes: &mut Notes)
    ensures { notes.new.first ≡ all_noted notes.old.first (all_leaves text.now (take 2 parts.now) ++ all_leaves text.now (drop 3 parts.now)) }
{
    note_all_leaves(text, &parts[..parts.len().min(2)], notes);
    note_all_leaves(text, &parts[parts.len().min(3)..], notes);
}

fn note_section_leaves(text: &[u8], section: &Tree, notes: &mut Notes)
    ensures { notes.new.first ≡ all_noted notes.old.first (section_leaves text.now section.now) }
{
    if !is_headed(text, section, b":metric") {
        note_leaves(text, section, notes);
        return;
    }
    match parts_of(section) {
        None => {}
        Some(parts) => note_metric_leaves(text, parts, notes),
    }
}

fn note_sections_leaves(text: &[u8], sections: &[Tree], notes: &mut Notes)
    ensures { notes.new.first ≡ all_noted notes.old.first (flat_map (section_leaves text.now) sections.now) }
{
    'each: for section in sections {
        note_section_leaves(text, section, notes);
    }
}

#[tactic(auto, using(pddl_trees::proofs::Walks::noted_after))]
fn note_parts_leaves(text: &[u8], parts: &[Tree], notes: &mut Notes)
    ensures { notes.new.first ≡ all_noted notes.old.first (all_leaves text.now (take 2 parts.now) ++ flat_map (section_leaves text.now) (sections_of parts.now)) }
{
    note_all_leaves(text, &parts[..parts.len().min(2)], notes);
    note_sections_leaves(text, behind_frame(parts), notes);
}

// The leaves of a problem but for those of the metric's tree.
fn note_problem_leaves(text: &[u8], tree: &Tree, notes: &mut Notes)
    ensures { notes.new.first ≡ all_noted notes.old.first (problem_leaves text.now tree.now) }
{
    match parts_of(tree) {
        None => note_leaves(text, tree, notes),
        Some(parts) => note_parts_leaves(text, parts, notes),
    }
}

// The first tree of a text as a problem; these are the further ones, and all of them.
#[tactic(auto, using(pddl_trees::proofs::Walks::noted_after))]
fn first_tree(
    alloc: Global,
    text: &[u8],
    tree: &Tree,
    rest: &[Tree],
    trees: &[Tree],
    notes: &mut Notes,
) -> Result<Option<Problem>, NoMemory>
    ensures faults { OnOk result (notes.new.first ≡ all_noted notes.old.first (problem_leaves text.now tree.now ++ all_leaves text.now rest.now ++ further_trees text.now trees.now ++ (problem_tree text.now tree.now).faults)) }
    ensures value { IfOk result (λ problem. notes.new.first ≡ None → problem ≡ (problem_tree text.now tree.now).value) }
{
    note_problem_leaves(text, tree, notes);
    note_all_leaves(text, rest, notes);
    note_extra(1, trees, notes);
    let problem = problem_tree(alloc, text, tree, notes)?;
    Ok(problem)
}

/// What the trees of a text say as a problem.
pub(crate) fn problem(
    alloc: Global,
    text: &[u8],
    trees: &[Tree],
    notes: &mut Notes,
) -> Result<Option<Problem>, NoMemory>
    ensures faults { OnOk result (notes.new.first ≡ all_noted notes.old.first (problem_in text.now trees.now).faults) }
    ensures value { IfOk result (λ problem. notes.new.first ≡ None → problem ≡ (problem_in text.now trees.now).value) }
{
    match trees {
        [] => {
            notes.note(0, Reason::Shape);
            Ok(None)
        }
        [tree, rest @ ..] => first_tree(alloc, text, tree, rest, trees, notes),
    }
}
