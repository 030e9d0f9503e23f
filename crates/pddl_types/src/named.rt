//! A pair whose names are found by tables.

ghost use Rattle.std.specs.Prelude.{◌≡◌, ◌++◌, IfOk};
ghost use Rattle.std.specs.Option.{option_copied};
ghost use Rattle.name_table.specs.Tables.{is_text_among, numbered, place_in};
ghost use Rattle.name_table.specs.TypedLists.{first_typed, names_of};
ghost use Rattle.pddl_types.specs.Pairs.{changed_functions, heads_of, objects_of, schema_names, visible};
ghost use Rattle.pddl_types.specs.Meanings.{first_sig, functions_first, named_by, sig_of};
ghost use Rattle.pddl_types.specs.internal.Tables.{AreTablesOf};

use crate::faults::Side;
use crate::letting_go::{discard_domain, discard_problem, discard_table};
use crate::lists::{first_parameter, first_sig};
use crate::pairs::{Pair, Sort};
use crate::tables::DomainTables;
use name_table::{NameTable, first_typed, typed_table};
use num_ends::NoMemory;
use pddl_terms::{Arg, Domain, Problem, Sig, Typed};
use std::alloc::Global;
use std::marker::Model;
use type_order::TypeOrder;

/// A pair with the tables by which its names are found. Contracts see the pair.
#[derive(Drop)]
pub(crate) struct Named {
    pair: Pair,
    tables: DomainTables,
    objects: NameTable,
}

impl Model for Named {
    ghost use Rattle.std.specs.Prelude.{◌≡◌};
    ghost use Rattle.pddl_types.specs.declared.pairs.Pair.{Pair};
    ghost use Rattle.name_table.specs.Tables.{numbered};
    ghost use Rattle.name_table.specs.TypedLists.{names_of};
    ghost use Rattle.pddl_types.specs.internal.Tables.{AreTablesOf};
    ghost use Rattle.pddl_terms.specs.contracts.conditions.Cond as cond;
    ghost use Rattle.pddl_terms.specs.contracts.expressions.Expr as expr;
    ghost use Rattle.std.specs.Coded.{codes};

    ghost Value = { Pair };

    ghost coded = { Prim.hlevel (codes, cond.the_row.coded, expr.the_row.coded) };

    ghost view = { λ n. n.pair };

    ghost invariant = { λ n. AreTablesOf n.pair.domain n.tables × (n.objects ≡ numbered (names_of n.pair.problem.objects)) };
}

// The table of the problem's objects, and the tables of the domain.
fn pair_tables(
    alloc: Global,
    domain: &Domain,
    problem: &Problem,
) -> Result<(NameTable, DomainTables), NoMemory>
    ensures objects { IfOk result (λ tables. tables.0 ≡ numbered (names_of problem.now.objects)) }
    ensures domain { IfOk result (λ tables. AreTablesOf domain.now tables.1) }
{
    let objects = typed_table(alloc, problem.objects.as_slice())?;
    let tables = DomainTables::new(alloc, domain)?;
    Ok((objects, tables))
}

impl Named {
    pub(crate) fn new(alloc: Global, domain: Domain, problem: Problem) -> Result<Named, NoMemory>
        ensures { IfOk result (λ named. named ≡ record { domain = domain; problem = problem }) }
    {
        match pair_tables(alloc, &domain, &problem) {
            Ok((objects, tables)) => {
                let pair = Pair { domain, problem };
                Ok(Named {
                    pair,
                    tables,
                    objects,
                })
            }
            Err(fault) => {
                discard_domain(domain);
                discard_problem(problem);
                Err(fault)
            }
        }
    }

    /// Lets the pair and its tables go.
    pub(crate) fn discard(self) {
        let Named {
            pair,
            tables,
            objects,
        } = self;
        let Pair { domain, problem } = pair;
        discard_domain(domain);
        discard_problem(problem);
        discard_table(objects);
        tables.discard();
    }

    pub(crate) fn domain(&self) -> &Domain
        ensures { result.now ≡ self.now.domain }
    {
        &self.pair.domain
    }

    pub(crate) fn problem(&self) -> &Problem
        ensures { result.now ≡ self.now.problem }
    {
        &self.pair.problem
    }

    /// The declared types and their descent.
    pub(crate) fn order(&self) -> TypeOrder<'_>
        ensures { result ≡ self.now.domain.types }
    {
        TypeOrder::new(self.pair.domain.types.as_slice(), &self.tables.types)
    }
}

/// Whether the section of the functions stands before that of the predicates.
pub(crate) fn functions_first(predicates: &[Sig], functions: &[Sig]) -> bool
    ensures { result ≡ functions_first predicates.now functions.now }
{
    match (predicates, functions) {
        ([predicate, ..], [function, ..]) => function.name.at < predicate.name.at,
        _ => false,
    }
}

impl Named {
    fn constant(&self, text: &[u8]) -> Option<&Typed>
        ensures { option_copied result ≡ first_typed text.now self.now.domain.constants }
    {
        first_typed(
            self.pair.domain.constants.as_slice(),
            &self.tables.constants,
            text,
        )
    }

    fn object(&self, text: &[u8]) -> Option<&Typed>
        ensures { option_copied result ≡ first_typed text.now self.now.problem.objects }
    {
        first_typed(self.pair.problem.objects.as_slice(), &self.objects, text)
    }

    // The declaration of a constant or an object of the problem.
    #[tactic(auto, using(crate::proofs::Found::constant_found, crate::proofs::Found::object_found))]
    fn constant_or_object(&self, text: &[u8]) -> Option<&Typed>
        ensures { option_copied result ≡ first_typed text.now (self.now.domain.constants ++ self.now.problem.objects) }
    {
        match self.constant(text) {
            Some(constant) => Some(constant),
            None => self.object(text),
        }
    }

    fn object_named(&self, side: Side, text: &[u8]) -> Option<&Typed>
        ensures { option_copied result ≡ first_typed text.now (visible self.now side) }
    {
        match side {
            Side::Domain => self.constant(text),
            Side::Problem => self.constant_or_object(text),
        }
    }

    /// The declaration of what an argument names, where variables are of these parameters.
    pub(crate) fn named_by<'a>(
        &'a self,
        side: Side,
        params: &'a [Typed],
        arg: &Arg,
    ) -> Option<&'a Typed>
        ensures { option_copied result ≡ named_by self.now side params.now arg.now }
    {
        match arg {
            Arg::Var(name) => first_parameter(params, name.text.as_slice()),
            Arg::Obj(name) => self.object_named(side, name.text.as_slice()),
        }
    }

    fn predicate(&self, text: &[u8]) -> Option<&Sig>
        ensures { option_copied result ≡ first_sig text.now self.now.domain.predicates }
    {
        first_sig(
            self.pair.domain.predicates.as_slice(),
            &self.tables.predicates,
            text,
        )
    }

    fn function(&self, text: &[u8]) -> Option<&Sig>
        ensures { option_copied result ≡ first_sig text.now self.now.domain.functions }
    {
        first_sig(
            self.pair.domain.functions.as_slice(),
            &self.tables.functions,
            text,
        )
    }

    fn is_function_first(&self) -> bool
        ensures { result ≡ functions_first self.now.domain.predicates self.now.domain.functions }
    {
        functions_first(
            self.pair.domain.predicates.as_slice(),
            self.pair.domain.functions.as_slice(),
        )
    }

    /// The declaration of a predicate or a function.
    pub(crate) fn sig_of(&self, sort: Sort, text: &[u8]) -> Option<&Sig>
        ensures { option_copied result ≡ sig_of self.now.domain sort text.now }
    {
        match sort {
            Sort::Predicate => {
                if self.is_function_first() && self.function(text).is_some() {
                    return None;
                }
                self.predicate(text)
            }
            Sort::Function => {
                if !self.is_function_first() && self.predicate(text).is_some() {
                    return None;
                }
                self.function(text)
            }
        }
    }

    /// Whether an effect changes the function of this name.
    #[tactic(auto, using(crate::proofs::Found::changed_found))]
    pub(crate) fn is_changed(&self, text: &[u8]) -> bool
        ensures { result ≡ is_text_among text.now (changed_functions self.now.domain) }
    {
        self.tables.changed.number(text).is_some()
    }

    /// The place of a constant's name among those of the constants.
    #[tactic(auto, using(name_table::proofs::Numbered::place_by_table))]
    pub(crate) fn constant_number(&self, text: &[u8]) -> Option<usize>
        ensures { result ≡ place_in text.now (names_of self.now.domain.constants) }
    {
        self.tables.constants.number(text)
    }

    /// The place of an object's name among those of the problem's objects.
    #[tactic(auto, using(name_table::proofs::Numbered::place_by_table))]
    pub(crate) fn object_number(&self, text: &[u8]) -> Option<usize>
        ensures { result ≡ place_in text.now (names_of self.now.problem.objects) }
    {
        self.objects.number(text)
    }

    /// The place of a predicate's name among those of the predicates.
    #[tactic(auto, using(name_table::proofs::Numbered::place_by_table))]
    pub(crate) fn predicate_number(&self, text: &[u8]) -> Option<usize>
        ensures { result ≡ place_in text.now (heads_of self.now.domain.predicates) }
    {
        self.tables.predicates.number(text)
    }

    /// The place of a function's name among those of the functions.
    #[tactic(auto, using(name_table::proofs::Numbered::place_by_table))]
    pub(crate) fn function_number(&self, text: &[u8]) -> Option<usize>
        ensures { result ≡ place_in text.now (heads_of self.now.domain.functions) }
    {
        self.tables.functions.number(text)
    }

    /// The place of an action's name among those of the actions.
    #[tactic(auto, using(name_table::proofs::Numbered::place_by_table))]
    pub(crate) fn schema_number(&self, text: &[u8]) -> Option<usize>
        ensures { result ≡ place_in text.now (schema_names self.now.domain.schemas) }
    {
        self.tables.schemas.number(text)
    }
}
