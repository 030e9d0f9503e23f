//! Lists of names with their types.

ghost use Rattle.std.specs.Prelude.{codes, ◌≡◌, [], ◌<◌, ◌≤◌, ◌^◌, ◌+◌, Some, None, true, false, map, OnOk, IfOk};
ghost use Rattle.num_ends.specs.Names.{folded};
ghost use Rattle.pddl_trees.specs.Faults.{all_noted};
ghost use Rattle.pddl_trees.specs.Forms.{Form};
ghost use Rattle.pddl_trees.specs.Trees.{form_of, forms_of};
ghost use Rattle.pddl_trees.specs.TypedLists.{fits_kind, past_limit, typed_from, typed_list};
ghost use Rattle.pddl_trees.specs.Names.{is_word};
ghost use Rattle.pddl_declarations.specs.internal.Typing.{IsTaken, typed_of, typed_with};
ghost use Rattle.pddl_declarations.specs.Kinds.{kind_of};

use crate::groups::{Group, typed_of};
use crate::kinds::Kind;
use num_ends::{List, NoMemory};
use pddl_terms::{Name, Typed};
use pddl_trees::faults::Reason;
use pddl_trees::forms::{name, position, word_of};
use pddl_trees::names::type_name;
use pddl_trees::notes::Notes;
use sexp_text::{Tree, is_word};
use std::alloc::Global;
use std::mem::replace;

// The names of a list so far.
#[derive(Drop)]
struct TypedNames {
    groups: Vec<Group>,
    // Those that wait for their type.
    waiting: Vec<Name>,
    // How many there were.
    seen: usize,
    // A `-` stands before.
    dashed: bool,
}

// Notes one name more than a list of this kind may have.
fn note_past_limit(kind: Kind, seen: usize, at: u32, notes: &mut Notes)
    ensures { notes.new.first ≡ all_noted notes.old.first (past_limit (kind_of kind) seen at) }
{
    match kind.limit() {
        Some((what, limit)) if seen == limit => notes.note(at, Reason::TooMany(what)),
        _ => {}
    }
}

impl TypedNames {
    // Takes the type of the names that wait.
    #[tactic(auto, using(pddl_trees::proofs::Noted::noted_append), unfolding(pddl_trees::specs::TypedLists::typed_from))]
    fn take_type(
        &mut self,
        alloc: Global,
        text: &[u8],
        tree: &Tree,
        notes: &mut Notes,
    ) -> Result<(), NoMemory>
        requires { self.old.dashed ≡ true }
        ensures taken { OnOk result ((kind : _) → IsTaken kind (form_of text.now tree.now) self.old notes.old.first self.new notes.new.first) }
        ensures seen { OnOk result (self.new.seen ≡ self.old.seen) }
    {
        let kind = type_name(alloc, text, tree, notes)?;
        let names = replace(&mut self.waiting, Vec::new(alloc));
        self.groups.push(Group { names, kind })?;
        self.dashed = false;
        Ok(())
    }

    // Takes a `-`.
    #[tactic(auto, using(pddl_trees::proofs::Noted::noted_append), unfolding(pddl_trees::specs::TypedLists::typed_from))]
    fn take_dash(&mut self, at: u32, notes: &mut Notes)
        requires { self.old.dashed ≡ false }
        ensures taken { (kind : _) (t : Form) → t.at ≡ at → is_word (codes "-") t ≡ true → IsTaken kind t self.old notes.old.first self.new notes.new.first }
        ensures seen { self.new.seen ≡ self.old.seen }
    {
        if self.waiting.is_empty() {
            notes.note(at, Reason::Shape);
        }
        self.dashed = true;
    }

    // Takes a word that may stand in the list.
    #[tactic(auto, using(pddl_trees::proofs::Noted::noted_append, crate::proofs::TypedSteps::step_name))]
    fn take_name(
        &mut self,
        alloc: Global,
        kind: Kind,
        at: u32,
        word: &[u8],
        notes: &mut Notes,
    ) -> Result<(), NoMemory>
        requires undashed { self.old.dashed ≡ false }
        requires room { self.old.seen < 2 ^ 63 }
        ensures taken { OnOk result ((t : Form) → t.at ≡ at → t.word ≡ Some (map folded word.now) → is_word (codes "-") t ≡ false → fits_kind (kind_of kind) t ≡ true
            → IsTaken (kind_of kind) t self.old notes.old.first self.new notes.new.first) }
        ensures seen { OnOk result (self.new.seen ≡ self.old.seen + 1) }
    {
        note_past_limit(kind, self.seen, at, notes);
        self.waiting.push(name(alloc, at, word)?)?;
        self.seen += 1;
        Ok(())
    }

    // Takes the next tree of a list.
    #[tactic(auto, using(pddl_trees::proofs::Noted::noted_append, crate::proofs::TypedSteps::step_other))]
    fn take(
        &mut self,
        alloc: Global,
        text: &[u8],
        kind: Kind,
        tree: &Tree,
        notes: &mut Notes,
    ) -> Result<(), NoMemory>
        requires { self.old.seen < 2 ^ 63 }
        ensures taken { OnOk result (IsTaken (kind_of kind) (form_of text.now tree.now) self.old notes.old.first self.new notes.new.first) }
        ensures seen { OnOk result (self.new.seen ≤ self.old.seen + 1) }
    {
        if self.dashed {
            return self.take_type(alloc, text, tree, notes);
        }
        let at = position(tree);
        match word_of(text, tree) {
            Some(word) if is_word(word, b"-") => {
                self.take_dash(at, notes);
                Ok(())
            }
            Some(word) if kind.fits(word) => self.take_name(alloc, kind, at, word, notes),
            _ => {
                notes.note(at, Reason::Shape);
                Ok(())
            }
        }
    }

    // The groups of a list at a position that has no more trees.
    #[tactic(auto, unfolding(pddl_trees::specs::TypedLists::typed_from))]
    fn finish(self, at: u32, notes: &mut Notes) -> Result<Vec<Group>, NoMemory>
        ensures faults { OnOk result ((kind : _) → notes.new.first ≡ all_noted notes.old.first (typed_with self kind at []).faults) }
        ensures items { IfOk result (λ groups. (kind : _) → typed_of groups.items ≡ (typed_with self kind at []).items) }
    {
        let TypedNames {
            mut groups,
            waiting: names,
            seen: _,
            dashed,
        } = self;
        if dashed {
            notes.note(at, Reason::Shape);
        }
        groups.push(Group { names, kind: None })?;
        Ok(groups)
    }
}

/// The names of a list at a position in groups of one type; what doesn't fit is noted.
pub fn groups(
    alloc: Global,
    text: &[u8],
    kind: Kind,
    at: u32,
    trees: &[Tree],
    notes: &mut Notes,
) -> Result<Vec<Group>, NoMemory>
    ensures faults { OnOk result (notes.new.first ≡ all_noted notes.old.first (typed_list (kind_of kind) at (forms_of text.now trees.now)).faults) }
    ensures items { IfOk result (λ groups. typed_of groups.items ≡ (typed_list (kind_of kind) at (forms_of text.now trees.now)).items) }
{
    let mut names = TypedNames {
        groups: Vec::new(alloc),
        waiting: Vec::new(alloc),
        seen: 0,
        dashed: false,
    };
    'each: for tree in trees {
        names.take(alloc, text, kind, tree, notes)?;
    }
    let groups = names.finish(at, notes)?;
    Ok(groups)
}

/// The names of a list at a position, each with its type; what doesn't fit is noted. Where a fault is noted, here or
/// before, the names aren't given.
pub fn typed_list(
    alloc: Global,
    text: &[u8],
    kind: Kind,
    at: u32,
    trees: &[Tree],
    notes: &mut Notes,
) -> Result<List<Typed>, NoMemory>
    ensures faults { OnOk result (notes.new.first ≡ all_noted notes.old.first (typed_list (kind_of kind) at (forms_of text.now trees.now)).faults) }
    ensures items { IfOk result (λ typed. notes.new.first ≡ None → typed ≡ (typed_list (kind_of kind) at (forms_of text.now trees.now)).items) }
{
    let groups = groups(alloc, text, kind, at, trees, notes)?;
    if notes.first.is_some() {
        return Ok(List::new(alloc));
    }
    Ok(List::from_vec(typed_of(alloc, groups)?))
}
