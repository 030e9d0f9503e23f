//! The keys that a file may require.

ghost use Rattle.std.specs.Prelude.{◌≡◌, map};
ghost use Rattle.num_ends.specs.Names.{folded};
ghost use Rattle.pddl_trees.specs.Declarations.{known_keys};
ghost use Rattle.pddl_trees.specs.Words.{is_among};

use pddl_trees::words::is_this;

/// Whether a key is one of those that a file may require.
pub fn is_known_key(word: &[u8]) -> bool
    ensures { result ≡ is_among (map folded word.now) known_keys }
{
    is_this(word, b":strips")
        || is_this(word, b":typing")
        || is_this(word, b":equality")
        || is_this(word, b":negative-preconditions")
        || is_this(word, b":disjunctive-preconditions")
        || is_this(word, b":fluents")
        || is_this(word, b":numeric-fluents")
        || is_this(word, b":action-costs")
        || is_this(word, b":adl")
        || is_this(word, b":conditional-effects")
        || is_this(word, b":existential-preconditions")
        || is_this(word, b":universal-preconditions")
        || is_this(word, b":quantified-preconditions")
}
