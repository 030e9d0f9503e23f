//! Declared types and their descent.

ghost use Rattle.std.specs.Prelude.{◌≡◌, bytes_eq, length};
ghost use Rattle.std.specs.Option.{option_copied};
ghost use Rattle.name_table.specs.Tables.{numbered, place_in};
ghost use Rattle.name_table.specs.TypedLists.{names_of};
ghost use Rattle.type_order.specs.Types.{climbs_to, descends, is_declared, is_within, parent_of, top_type};

use name_table::{NameTable, first_typed};
use pddl_terms::Typed;
use std::marker::Model;

/// The declared types of a domain with the table of their names. Contracts see the list of types.
#[derive(Drop)]
pub struct TypeOrder<'a> {
    types: &'a [Typed],
    table: &'a NameTable,
}

impl<'a> Model for TypeOrder<'a> {
    ghost use Rattle.std.specs.Prelude.{List, ◌≡◌};
    ghost use Rattle.pddl_terms.specs.declared.names.Typed.{Typed};
    ghost use Rattle.name_table.specs.Tables.{numbered};
    ghost use Rattle.name_table.specs.TypedLists.{names_of};

    ghost Value = { List Typed };

    ghost view = { λ o. o.types.now };

    ghost invariant = { λ o. o.table.now ≡ numbered (names_of o.types.now) };
}

fn is_same(text: &[u8], other: &[u8]) -> bool
    ensures { result ≡ bytes_eq text.now other.now }
{
    text == other
}

fn is_top(kind: &[u8]) -> bool
    ensures { result ≡ bytes_eq kind.now top_type }
{
    is_same(kind, b"object")
}

impl<'a> TypeOrder<'a> {
    /// The order of these types, with the table of their names.
    pub fn new(types: &'a [Typed], table: &'a NameTable) -> TypeOrder<'a>
        requires { table.now ≡ numbered (names_of types.now) }
        ensures { result ≡ types.now }
    {
        TypeOrder { types, table }
    }

    /// The types in the order of the file.
    pub fn types(&self) -> &'a [Typed]
        ensures { result.now ≡ self.now }
    {
        self.types
    }

    /// How many types there are.
    pub fn count(&self) -> usize
        ensures { result ≡ length self.now }
    {
        self.types.len()
    }

    /// Whether a type is declared. The type `object` always is.
    pub fn is_declared(&self, kind: &[u8]) -> bool
        ensures { result ≡ is_declared self.now kind.now }
    {
        is_top(kind) || first_typed(self.types, self.table, kind).is_some()
    }

    /// The type right above a declared one; none above `object` and above a type that isn't declared.
    pub fn parent(&self, kind: &[u8]) -> Option<&'a [u8]>
        ensures { option_copied result ≡ parent_of self.now kind.now }
    {
        if is_top(kind) {
            return None;
        }
        match first_typed(self.types, self.table, kind) {
            Some(declared) => Some(declared.kind.text.as_slice()),
            None => None,
        }
    }

    // Whether a type is reached from another by at most as many steps up as there are declarations in a list.
    fn climbs_to(&self, steps: &[Typed], own: &[u8], other: &[u8]) -> bool
        ensures { result ≡ climbs_to self.now steps.now own.now other.now }
    {
        let mut kind = own;
        'steps: for _step in steps {
            match self.parent(kind) {
                None => return false,
                Some(parent) => {
                    if is_same(parent, other) {
                        return true;
                    }
                    kind = parent;
                }
            }
        }
        false
    }

    /// Whether a type descends from another one.
    #[tactic(auto, unfolding(crate::specs::Types::descends))]
    pub fn descends(&self, own: &[u8], other: &[u8]) -> bool
        ensures { result ≡ descends self.now own.now other.now }
    {
        self.climbs_to(self.types, own, other)
    }

    /// Whether a type is another one or descends from it.
    pub fn is_within(&self, own: &[u8], other: &[u8]) -> bool
        ensures { result ≡ is_within self.now own.now other.now }
    {
        is_same(own, other) || self.descends(own, other)
    }

    /// The first place of a type's name among the types.
    #[tactic(auto, using(name_table::proofs::Numbered::place_by_table))]
    pub fn number(&self, kind: &[u8]) -> Option<usize>
        ensures { result ≡ place_in kind.now (names_of self.now) }
    {
        self.table.number(kind)
    }
}
