//! Trees read as effects.

ghost use Rattle.std.specs.Prelude.{◌≡◌, IfOk, List, OnOk, Some, drop, flat_map, fold, map, option_map, take, true};
ghost use Rattle.num_ends.specs.Names.{folded};
ghost use Rattle.pddl_terms.specs.declared.actions.Effect.TheVariants as effect;
ghost use Rattle.pddl_trees.specs.Faults.{all_noted};
ghost use Rattle.pddl_trees.specs.Atoms.{atom_of};
ghost use Rattle.pddl_trees.specs.Effects.{change, changed, deleted, deletion, effects_of};
ghost use Rattle.pddl_trees.specs.Trees.{form_of, forms_of};
ghost use Rattle.pddl_trees.specs.Forms.{first_of};
ghost use Rattle.pddl_actions.specs.internal.EffectSteps.{changed_by, kind_of, no_effects, with_effect, with_fitting};
ghost use Rattle.pddl_actions.specs.Kept.{fitting, kept_of, past_of};

use num_ends::{List, NoMemory};
use pddl_expressions::atoms::{atom, tree_atom};
use pddl_expressions::expressions::expression_at;
use pddl_expressions::found::Found;
use pddl_terms::{Assign, Atom, Effect, Expr, MAX_EFFECTS};
use pddl_trees::faults::Reason;
use pddl_trees::forms::{note_count, word_of};
use pddl_trees::notes::Notes;
use pddl_trees::words::change_of;
use sexp_text::{Tree, is_word};
use std::alloc::Global;

/// What the first tree of an effect's list makes of the list.
#[derive(Clone, Copy, Debug)]
pub enum Kind {
    /// The other trees are effects.
    All,
    /// An atom becomes false.
    Deletion,
    /// A fluent changes.
    Change(Assign),
    /// The list is an atom, or doesn't fit.
    Addition,
}

/// The single effects that were read so far.
#[derive(Debug, Drop)]
pub struct Gathered {
    /// Those that fit, in order, but for changes by an expression that is too high.
    pub kept: List<Effect>,
    /// How many were read, or [`MAX_EFFECTS`] where these were more.
    pub count: u32,
    /// The position of the first past [`MAX_EFFECTS`].
    pub past: Option<u32>,
}

impl Gathered {
    pub fn new(alloc: Global) -> Gathered
        ensures { result ≡ no_effects }
    {
        Gathered {
            kept: List::new(alloc),
            count: 0,
            past: None,
        }
    }

    // Counts a single effect at a position, and keeps it where it fits.
    fn add(&mut self, at: u32, effect: Option<Effect>) -> Result<(), NoMemory>
        ensures { OnOk result (self.new ≡ with_fitting self.old at effect) }
    {
        if let Some(effect) = effect {
            self.kept.push(effect)?;
        }
        if self.count < MAX_EFFECTS {
            self.count += 1;
        } else if self.past.is_none() {
            self.past = Some(at);
        }
        Ok(())
    }
}

fn kind_of(word: &[u8]) -> Kind
    ensures { result ≡ kind_of (Some (map folded word.now)) }
{
    if is_word(word, b"and") {
        return Kind::All;
    }
    if is_word(word, b"not") {
        return Kind::Deletion;
    }
    match change_of(word) {
        Some(how) => Kind::Change(how),
        None => Kind::Addition,
    }
}

fn kind_at(text: &[u8], tree: &Tree) -> Kind
    ensures { result ≡ kind_of (form_of text.now tree.now).word }
{
    match word_of(text, tree) {
        Some(word) => kind_of(word),
        None => Kind::Addition,
    }
}

// The trees of a list at a position as an atom that becomes true.
fn addition(
    alloc: Global,
    text: &[u8],
    at: u32,
    trees: &[Tree],
    notes: &mut Notes,
) -> Result<Option<Effect>, NoMemory>
    ensures value { IfOk result (λ added. added ≡ fitting (option_map effect.Add (atom_of true at (forms_of text.now trees.now)).value)) }
    ensures faults { OnOk result (notes.new.first ≡ all_noted notes.old.first (atom_of true at (forms_of text.now trees.now)).faults) }
{
    match atom(alloc, text, true, at, trees, notes)? {
        Some(atom) => Ok(Some(Effect::Add(atom))),
        None => Ok(None),
    }
}

// The first part as an atom, where there is one.
#[tactic(auto, using(pddl_trees::proofs::Trees::part_there, pddl_trees::proofs::Trees::part_past, pddl_trees::proofs::Trees::faults_there))]
fn first_atom(
    alloc: Global,
    text: &[u8],
    parts: &[Tree],
    notes: &mut Notes,
) -> Result<Option<Atom>, NoMemory>
    ensures value { IfOk result (λ found. found ≡ first_of (λ t. t.atom.value) (forms_of text.now parts.now)) }
    ensures faults { OnOk result (notes.new.first ≡ all_noted notes.old.first (flat_map (λ t. t.atom.faults) (take 1 (forms_of text.now parts.now)))) }
{
    match parts {
        [] => Ok(None),
        [first, ..] => tree_atom(alloc, text, first, notes),
    }
}

// The parts of a deletion at a position.
#[tactic(auto, using(pddl_expressions::proofs::Connecting::one_noted, crate::proofs::Effecting::deleted_by_count, crate::proofs::Effecting::counted, crate::proofs::Effecting::not_counted))]
fn deletion(
    alloc: Global,
    text: &[u8],
    at: u32,
    parts: &[Tree],
    notes: &mut Notes,
) -> Result<Option<Effect>, NoMemory>
    ensures value { IfOk result (λ deleted_one. deleted_one ≡ fitting (deleted (forms_of text.now parts.now))) }
    ensures faults { OnOk result (notes.new.first ≡ all_noted notes.old.first (deletion at (forms_of text.now parts.now)).faults) }
{
    let atom = first_atom(alloc, text, parts, notes)?;
    note_count(at, 1, parts, notes);
    match atom {
        Some(atom) if parts.len() == 1 => Ok(Some(Effect::Del(atom))),
        _ => Ok(None),
    }
}

// A change of a fluent by an expression that isn't too high.
fn changed_by(how: Assign, fluent: Option<Atom>, by: Found<Expr>) -> Option<Effect>
    ensures { result ≡ changed_by how fluent by }
{
    match (fluent, by) {
        (Some(fluent), Found::Fine(by, _)) => Some(Effect::Num(how, fluent, by)),
        _ => None,
    }
}

// The parts of a change at a position.
#[tactic(auto, using(crate::proofs::Effecting::change_noted, crate::proofs::Effecting::changed_by_count, crate::proofs::Effecting::counted, crate::proofs::Effecting::not_counted))]
fn change(
    alloc: Global,
    text: &[u8],
    at: u32,
    how: Assign,
    parts: &[Tree],
    notes: &mut Notes,
) -> Result<Option<Effect>, NoMemory>
    ensures value { IfOk result (λ changed_one. changed_one ≡ fitting (changed how (forms_of text.now parts.now))) }
    ensures faults { OnOk result (notes.new.first ≡ all_noted notes.old.first (change at how (forms_of text.now parts.now)).faults) }
{
    let fluent = first_atom(alloc, text, parts, notes)?;
    let by = expression_at(alloc, text, 1, parts, notes)?;
    note_count(at, 2, parts, notes);
    if parts.len() == 2 {
        Ok(changed_by(how, fluent, by))
    } else {
        Ok(None)
    }
}

/// Gathers the single effects of a tree in order.
#[tactic(auto, using(pddl_trees::proofs::Trees::effects_of_leaf, pddl_trees::proofs::Trees::effects_of_list))]
#[cycle(effects)]
fn effects(
    alloc: Global,
    text: &[u8],
    tree: &Tree,
    gathered: &mut Gathered,
    notes: &mut Notes,
) -> Result<(), NoMemory>
    ensures gathered { OnOk result (gathered.new ≡ fold with_effect gathered.old (form_of text.now tree.now).effects.found) }
    ensures faults { OnOk result (notes.new.first ≡ all_noted notes.old.first (form_of text.now tree.now).effects.faults) }
{
    match tree {
        Tree::Leaf(span) => {
            notes.note(span.from, Reason::Shape);
            Ok(())
        }
        Tree::List(span, trees) => {
            list_effects(alloc, text, span.from, trees.as_slice(), gathered, notes)
        }
    }
}

#[cycle(effects)]
fn list_effects(
    alloc: Global,
    text: &[u8],
    at: u32,
    trees: &[Tree],
    gathered: &mut Gathered,
    notes: &mut Notes,
) -> Result<(), NoMemory>
    ensures gathered { OnOk result (gathered.new ≡ fold with_effect gathered.old (effects_of at (forms_of text.now trees.now) (atom_of true at (forms_of text.now trees.now))).found) }
    ensures faults { OnOk result (notes.new.first ≡ all_noted notes.old.first (effects_of at (forms_of text.now trees.now) (atom_of true at (forms_of text.now trees.now))).faults) }
{
    match trees {
        [] => Ok(()),
        [head, parts @ ..] => match kind_at(text, head) {
            Kind::All => each_effects(alloc, text, parts, gathered, notes),
            Kind::Deletion => {
                let effect = deletion(alloc, text, at, parts, notes)?;
                gathered.add(at, effect)
            }
            Kind::Change(how) => {
                let effect = change(alloc, text, at, how, parts, notes)?;
                gathered.add(at, effect)
            }
            Kind::Addition => {
                let effect = addition(alloc, text, at, trees, notes)?;
                gathered.add(at, effect)
            }
        },
    }
}

#[cycle(effects)]
fn each_effects(
    alloc: Global,
    text: &[u8],
    parts: &[Tree],
    gathered: &mut Gathered,
    notes: &mut Notes,
) -> Result<(), NoMemory>
    ensures gathered { OnOk result (gathered.new ≡ fold with_effect gathered.old (flat_map (λ t. t.effects.found) (forms_of text.now parts.now))) }
    ensures faults { OnOk result (notes.new.first ≡ all_noted notes.old.first (flat_map (λ t. t.effects.faults) (forms_of text.now parts.now))) }
{
    'each: for tree in parts {
        effects(alloc, text, tree, gathered, notes)?;
    }
    Ok(())
}

/// The single effects of a tree: those that fit, and the position of the first past [`MAX_EFFECTS`].
#[tactic(auto, using(crate::proofs::Keeping::gathered_all))]
pub fn tree_effects(
    alloc: Global,
    text: &[u8],
    tree: &Tree,
    notes: &mut Notes,
) -> Result<Gathered, NoMemory>
    ensures kept { IfOk result (λ gathered. gathered.kept ≡ kept_of (form_of text.now tree.now).effects.found) }
    ensures past { IfOk result (λ gathered. gathered.past ≡ past_of (form_of text.now tree.now).effects.found) }
    ensures faults { OnOk result (notes.new.first ≡ all_noted notes.old.first (form_of text.now tree.now).effects.faults) }
{
    let mut gathered = Gathered::new(alloc);
    effects(alloc, text, tree, &mut gathered, notes)?;
    Ok(gathered)
}
