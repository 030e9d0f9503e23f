//! A well-formed pair, and its reads.

ghost use Rattle.std.specs.Prelude.{◌≡◌, ◌+◌, ◌<◌, ◌++◌, Some, length, slice_get};
ghost use Rattle.pddl_terms.specs.declared.names.Typed.{Typed};
ghost use Rattle.pddl_terms.specs.Readable.{IsReadable};
ghost use Rattle.name_table.specs.Tables.{place_in};
ghost use Rattle.name_table.specs.TypedLists.{names_of};
ghost use Rattle.type_order.specs.Types.{is_within};
ghost use Rattle.pddl_types.specs.Checked.{IsChecked};
ghost use Rattle.pddl_types.specs.Pairs.{heads_of, objects_of, schema_names};
ghost use Rattle.pddl_types.specs.WellFormed.{WellFormed};

use crate::named::Named;
use pddl_terms::{Domain, Name, Problem, Typed};
use std::marker::Model;

/// A well-formed domain and problem that are as texts spell them. Contracts see the pair.
#[derive(Drop)]
pub struct Checked {
    named: Named,
}

impl Model for Checked {
    ghost use Rattle.pddl_types.specs.declared.pairs.Pair.{Pair};
    ghost use Rattle.pddl_types.specs.Checked.{IsChecked};
    ghost use Rattle.pddl_terms.specs.contracts.conditions.Cond as cond;
    ghost use Rattle.pddl_terms.specs.contracts.expressions.Expr as expr;
    ghost use Rattle.std.specs.Coded.{codes};

    ghost Value = { Pair };

    ghost coded = { Prim.hlevel (codes, cond.the_row.coded, expr.the_row.coded) };

    ghost view = { λ c. c.named };

    ghost invariant = { λ c. IsChecked c.named };
}

impl Checked {
    pub(crate) fn new(named: Named) -> Checked
        requires { IsChecked named }
        ensures { result ≡ named }
    {
        Checked { named }
    }

    /// Lets a checked pair go, part by part.
    pub fn discard(self) {
        let Checked { named } = self;
        named.discard();
    }

    /// The domain. What was checked is well formed, and as texts spell it.
    pub fn domain(&self) -> &Domain
        ensures domain { result.now ≡ self.now.domain }
        ensures readable { IsReadable self.now.domain self.now.problem }
        ensures well_formed { WellFormed self.now }
    {
        self.named.domain()
    }

    /// The problem. What was checked is well formed, and as texts spell it.
    pub fn problem(&self) -> &Problem
        ensures problem { result.now ≡ self.now.problem }
        ensures readable { IsReadable self.now.domain self.now.problem }
        ensures well_formed { WellFormed self.now }
    {
        self.named.problem()
    }

    /// How many constants and objects there are.
    pub fn objects(&self) -> u32
        ensures { result ≡ length (objects_of self.now) }
    {
        let constants = self.named.domain().constants.len() as u32;
        let objects = self.named.problem().objects.len() as u32;
        constants + objects
    }

    /// The constant or object with a number: constants come first, then objects, in the order of the files.
    pub fn object(&self, number: u32) -> &Typed
        requires { number < length (objects_of self.now) }
        ensures { slice_get (objects_of self.now) number ≡ Some result.now }
    {
        let constants = self.named.domain().constants.as_slice();
        let objects = self.named.problem().objects.as_slice();
        let number = number as usize;
        if number < constants.len() {
            return &constants[number];
        }
        &objects[number - constants.len()]
    }

    /// The number of a constant or an object; none where the name isn't declared.
    pub fn object_number(&self, text: &[u8]) -> Option<u32>
        ensures { result ≡ place_in text.now (names_of (objects_of self.now)) }
    {
        match self.named.constant_number(text) {
            Some(number) => Some(number as u32),
            None => match self.named.object_number(text) {
                Some(number) => Some(self.named.domain().constants.len() as u32 + number as u32),
                None => None,
            },
        }
    }

    /// The number of a predicate in the order of the file; none where the name isn't declared.
    pub fn predicate_number(&self, text: &[u8]) -> Option<u32>
        ensures { result ≡ place_in text.now (heads_of self.now.domain.predicates) }
    {
        match self.named.predicate_number(text) {
            Some(number) => Some(number as u32),
            None => None,
        }
    }

    /// The number of a function in the order of the file; none where the name isn't declared.
    pub fn function_number(&self, text: &[u8]) -> Option<u32>
        ensures { result ≡ place_in text.now (heads_of self.now.domain.functions) }
    {
        match self.named.function_number(text) {
            Some(number) => Some(number as u32),
            None => None,
        }
    }

    /// The number of an action in the order of the file; none where the name isn't declared.
    pub fn schema_number(&self, text: &[u8]) -> Option<u32>
        ensures { result ≡ place_in text.now (schema_names self.now.domain.schemas) }
    {
        match self.named.schema_number(text) {
            Some(number) => Some(number as u32),
            None => None,
        }
    }

    /// Whether the type of the object with a number is this one or descends from it.
    pub fn fits(&self, object: u32, kind: &Name) -> bool
        requires { object < length (objects_of self.now) }
        ensures { (own : Typed) → slice_get (objects_of self.now) object ≡ Some own → result ≡ is_within self.now.domain.types own.kind.text kind.now.text }
    {
        let own = self.object(object);
        self.named
            .order()
            .is_within(own.kind.text.as_slice(), kind.text.as_slice())
    }
}
