//! The sections of a domain or a problem by their words.

ghost use Rattle.std.specs.Prelude.{◌≡◌, IfOk, List, flat_map, map, option_map};
ghost use Rattle.num_ends.specs.Names.{folded};
ghost use Rattle.pddl_trees.specs.Faults.{all_noted};
ghost use Rattle.pddl_trees.specs.Trees.{form_of, forms_of};
ghost use Rattle.pddl_trees.specs.Sections.{content_named, content_of, domain_sections, place_named, problem_sections, repeated_sections, repeats_of, section_faults, section_front_faults, section_named, section_word_faults};
ghost use Rattle.pddl_trees.specs.Words.{is_among};

use pddl_trees::faults::Reason;
use pddl_trees::forms::{position, word_of};
use pddl_trees::names::{is_headed, parts_of};
use pddl_trees::notes::Notes;
use pddl_trees::words::{is_key, is_this};
use sexp_text::Tree;

/// What a text is read as.
#[derive(Clone, Copy, Debug)]
pub enum Side {
    Domain,
    Problem,
}

fn is_domain_section(word: &[u8]) -> bool
    ensures { result ≡ is_among (map folded word.now) domain_sections }
{
    is_this(word, b":requirements")
        || is_this(word, b":types")
        || is_this(word, b":constants")
        || is_this(word, b":predicates")
        || is_this(word, b":functions")
        || is_this(word, b":action")
}

fn is_problem_section(word: &[u8]) -> bool
    ensures { result ≡ is_among (map folded word.now) problem_sections }
{
    is_this(word, b":domain")
        || is_this(word, b":requirements")
        || is_this(word, b":objects")
        || is_this(word, b":init")
        || is_this(word, b":goal")
        || is_this(word, b":metric")
}

impl Side {
    ghost use Rattle.pddl_declarations.specs.Sides.{sections_of_side};

    fn has_section(self, word: &[u8]) -> bool
        ensures { result ≡ is_among (map folded word.now) (sections_of_side self) }
    {
        match self {
            Side::Domain => is_domain_section(word),
            Side::Problem => is_problem_section(word),
        }
    }

    fn note_word(self, at: u32, word: &[u8], notes: &mut Notes)
        ensures { notes.new.first ≡ all_noted notes.old.first (section_word_faults (sections_of_side self) at (map folded word.now)) }
    {
        if !is_key(word) {
            notes.note(at, Reason::Shape);
        } else if !self.has_section(word) {
            notes.note(at, Reason::Unsupported);
        }
    }

    fn note_front(self, text: &[u8], at: u32, parts: &[Tree], notes: &mut Notes)
        ensures { notes.new.first ≡ all_noted notes.old.first (section_front_faults (sections_of_side self) at (forms_of text.now parts.now)) }
    {
        match parts {
            [] => notes.note(at, Reason::Shape),
            [first, ..] => match word_of(text, first) {
                None => notes.note(position(first), Reason::Shape),
                Some(word) => self.note_word(position(first), word, notes),
            },
        }
    }

    fn note_section(self, text: &[u8], section: &Tree, notes: &mut Notes)
        ensures { notes.new.first ≡ all_noted notes.old.first (section_faults text.now (sections_of_side self) section.now) }
    {
        match parts_of(section) {
            None => notes.note(position(section), Reason::Shape),
            Some(parts) => self.note_front(text, position(section), parts, notes),
        }
    }

    /// Notes what is no section.
    pub fn note_sections(self, text: &[u8], sections: &[Tree], notes: &mut Notes)
        ensures { notes.new.first ≡ all_noted notes.old.first (flat_map (section_faults text.now (sections_of_side self)) sections.now) }
    {
        'each: for section in sections {
            self.note_section(text, section, notes);
        }
    }
}

/// Notes the sections of a name but for the first.
#[tactic(auto, using(pddl_trees::proofs::Walks::first_repeats))]
pub fn note_repeats(text: &[u8], sections: &[Tree], word: &[u8], notes: &mut Notes)
    ensures { notes.new.first ≡ all_noted notes.old.first (repeats_of text.now sections.now word.now) }
{
    let mut seen = false;
    'each: for section in sections {
        if is_headed(text, section, word) {
            if seen {
                notes.note(position(section), Reason::Shape);
            }
            seen = true;
        }
    }
}

/// The first section of a name.
pub fn section_named<'a>(text: &[u8], sections: &'a [Tree], word: &[u8]) -> Option<&'a Tree>
    ensures { option_map (λ s. s.now) result ≡ section_named text.now word.now sections.now }
{
    'each: for section in sections {
        if is_headed(text, section, word) {
            return Some(section);
        }
    }
    None
}

/// What stands in a section behind its word.
pub fn content_of(section: &Tree) -> &[Tree]
    ensures { result.now ≡ content_of section.now }
{
    match parts_of(section) {
        None | Some([]) => &[],
        Some([_, rest @ ..]) => rest,
    }
}

/// The position of the first section of a name and what stands in it behind its word, or nothing where there is none.
pub fn named<'a>(text: &[u8], sections: &'a [Tree], word: &[u8]) -> (u32, &'a [Tree])
    ensures place { result.0 ≡ place_named text.now word.now sections.now }
    ensures content { result.1.now ≡ content_named text.now word.now sections.now }
{
    match section_named(text, sections, word) {
        None => (0, &[]),
        Some(section) => (position(section), content_of(section)),
    }
}
