//! The parts of an action by their keywords.

ghost use Rattle.std.specs.Prelude.{◌≡◌, [], None, IfSome, option_map, map};
ghost use Rattle.pddl_trees.specs.Faults.{all_noted};
ghost use Rattle.pddl_trees.specs.Trees.{form_of};
ghost use Rattle.pddl_trees.specs.Actions.{clause_of, clause_word, clauses_from, is_free, no_clauses, with_clause};
ghost use Rattle.pddl_actions.specs.internal.ClauseSteps.{AreParts, IsClauseTaken, clause_said, clauses_of, clauses_with};
ghost use Rattle.num_ends.specs.Names.{folded};

use pddl_trees::faults::Reason;
use pddl_trees::forms::{position, word_of};
use pddl_trees::notes::Notes;
use sexp_text::{Tree, is_word};

/// A keyword of an action.
#[derive(Clone, Copy, Debug, PartialEq, Eq)]
pub(crate) enum Clause {
    Parameters,
    Precondition,
    Effect,
}

/// The parts of an action that are there.
#[derive(Clone, Copy, Debug)]
pub(crate) struct ActionParts<'a> {
    pub(crate) parameters: Option<&'a Tree>,
    pub(crate) precondition: Option<&'a Tree>,
    pub(crate) effect: Option<&'a Tree>,
}

// The parts so far, and the keyword that stands before.
#[derive(Clone, Copy, Debug)]
struct ClauseReading<'a> {
    parts: ActionParts<'a>,
    keyword: Option<Clause>,
}

fn clause_word(word: &[u8]) -> Option<Clause>
    ensures { option_map clause_said result ≡ clause_word (map folded word.now) }
{
    if is_word(word, b":parameters") {
        return Some(Clause::Parameters);
    }
    if is_word(word, b":precondition") {
        return Some(Clause::Precondition);
    }
    if is_word(word, b":effect") {
        return Some(Clause::Effect);
    }
    None
}

impl<'a> ActionParts<'a> {
    // Whether there is no part behind this keyword.
    fn is_free(self, clause: Clause) -> bool
        ensures { result ≡ is_free (clauses_of self.entry) (clause_said clause) }
    {
        match clause {
            Clause::Parameters => self.parameters.is_none(),
            Clause::Precondition => self.precondition.is_none(),
            Clause::Effect => self.effect.is_none(),
        }
    }

    // The keyword that a tree is, where there is no part behind it yet.
    fn clause_of(self, text: &[u8], tree: &Tree) -> Option<Clause>
        ensures { option_map clause_said result ≡ clause_of (clauses_of self.entry) (form_of text.now tree.now) }
    {
        match clause_word(word_of(text, tree)?) {
            Some(clause) if self.is_free(clause) => Some(clause),
            _ => None,
        }
    }

    // The parts with one more behind a keyword.
    fn with(self, clause: Clause, tree: &'a Tree) -> ActionParts<'a>
        ensures { clauses_of result ≡ with_clause (clause_said clause) tree.now (clauses_of self.entry) }
    {
        let tree = Some(tree);
        match clause {
            Clause::Parameters => ActionParts {
                parameters: tree,
                ..self
            },
            Clause::Precondition => ActionParts {
                precondition: tree,
                ..self
            },
            Clause::Effect => ActionParts {
                effect: tree,
                ..self
            },
        }
    }
}

impl<'a> ClauseReading<'a> {
    // What is read with the next tree of an action.
    fn with(self, text: &[u8], tree: &'a Tree, notes: &mut Notes) -> ClauseReading<'a>
        ensures { IsClauseTaken text.now tree.now self.entry notes.old.first result notes.new.first }
    {
        let parts = self.parts;
        if let Some(clause) = self.keyword {
            return ClauseReading {
                parts: parts.with(clause, tree),
                keyword: None,
            };
        }
        match parts.clause_of(text, tree) {
            Some(clause) => ClauseReading {
                parts,
                keyword: Some(clause),
            },
            None => {
                notes.note(position(tree), Reason::Shape);
                ClauseReading {
                    parts,
                    keyword: None,
                }
            }
        }
    }

    // The parts of an action at a position that has no more trees.
    #[tactic(auto, unfolding(pddl_trees::specs::Actions::clauses_from))]
    fn finish(self, at: u32, notes: &mut Notes) -> ActionParts<'a>
        ensures faults { (text : _) → notes.new.first ≡ all_noted notes.old.first (clauses_with self.entry text at []).faults }
        ensures parts { (text : _) → AreParts result (clauses_with self.entry text at []) }
    {
        if self.keyword.is_some() {
            notes.note(at, Reason::Shape);
        }
        self.parts
    }
}

/// The parts of an action at a position from its trees behind the name; what doesn't fit is noted.
pub(crate) fn action_parts<'a>(
    text: &[u8],
    at: u32,
    trees: &'a [Tree],
    notes: &mut Notes,
) -> ActionParts<'a>
    ensures faults { notes.new.first ≡ all_noted notes.old.first (clauses_from text.now at None no_clauses trees.now).faults }
    ensures parts { AreParts result (clauses_from text.now at None no_clauses trees.now) }
{
    let mut reading = ClauseReading {
        parts: ActionParts {
            parameters: None,
            precondition: None,
            effect: None,
        },
        keyword: None,
    };
    'each: for tree in trees {
        reading = reading.with(text, tree, notes);
    }
    reading.finish(at, notes)
}
