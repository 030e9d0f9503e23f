//! The kinds of typed lists.

ghost use Rattle.std.specs.Prelude.{◌≡◌, map};
ghost use Rattle.num_ends.specs.Names.{folded};
ghost use Rattle.pddl_declarations.specs.Kinds.{kind_of};

use num_ends::is_name_folded;
use pddl_terms::{MAX_OBJECTS, MAX_PARAMETERS, What};
use pddl_trees::words::is_variable;

/// What a typed list has.
#[derive(Clone, Copy, Debug, PartialEq, Eq)]
pub enum Kind {
    /// Names.
    Names,
    /// Names of objects, of which there is a limit.
    Objects,
    /// Variables, of which there is a limit.
    Parameters,
}

impl Kind {
    /// Whether a word may stand in such a list.
    pub fn fits(self, word: &[u8]) -> bool
        ensures { result ≡ (kind_of self).fits (map folded word.now) }
    {
        match self {
            Kind::Names | Kind::Objects => is_name_folded(word),
            Kind::Parameters => is_variable(word),
        }
    }

    /// What such a list may not have too many of, and how many it may have.
    pub fn limit(self) -> Option<(What, usize)>
        ensures { result ≡ (kind_of self).limit }
    {
        match self {
            Kind::Names => None,
            Kind::Objects => Some((What::Objects, MAX_OBJECTS as usize)),
            Kind::Parameters => Some((What::Parameters, MAX_PARAMETERS as usize)),
        }
    }
}
