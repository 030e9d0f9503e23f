//! The faults of declarations: of types, constants and objects, predicates and functions, and actions.

ghost use Rattle.std.specs.Prelude.{◌≡◌, ◌∷◌, [], OnOk, flat_map, map};
ghost use Rattle.name_table.specs.TypedLists.{names_of};
ghost use Rattle.type_order.specs.Types.{top_type};
ghost use Rattle.pddl_types.specs.declared.faults.Side.TheVariants as side_of;
ghost use Rattle.pddl_types.specs.DeclarationFaults.{cyclic_types, parameter_faults, repeated, repeated_heads, repeated_in_both, signature_faults, typed_faults, types_faults, unknown_types, with_names};
ghost use Rattle.pddl_types.specs.Checks.{schema_faults};
ghost use Rattle.pddl_types.specs.internal.Notes.{Noted};

use crate::atoms::Scope;
use crate::conditions::{note_condition, note_effects};
use crate::faults::{CheckKind, Side};
use crate::first::Notes;
use crate::lists::heads_of;
use crate::named::{Named, functions_first};
use name_table::{NameSet, names_of};
use num_ends::NoMemory;
use pddl_terms::{Name, Schema, Sig, Typed};
use std::alloc::Global;
use type_order::Cycles;

/// Notes the names that stand again, where some were seen before.
pub(crate) fn note_repeated<'a>(
    alloc: Global,
    side: Side,
    names: &[&'a Name],
    seen: &mut NameSet<'a>,
    notes: &mut Notes,
) -> Result<(), NoMemory>
    ensures faults { OnOk result (Noted notes.old notes.new (repeated side seen.old (map (λ n. n.now) names.now))) }
    ensures after { OnOk result (seen.new ≡ with_names seen.old (map (λ n. n.now) names.now)) }
{
    'each: for name in names {
        if !seen.add(name.text.as_slice())? {
            notes.note(alloc, side, CheckKind::Duplicate, name)?;
        }
    }
    Ok(())
}

// Notes the types of a list that are their own ancestors.
fn note_cycles(
    alloc: Global,
    cycles: &Cycles,
    items: &[Typed],
    notes: &mut Notes,
) -> Result<(), NoMemory>
    ensures { OnOk result (Noted notes.old notes.new (cyclic_types cycles.now items.now)) }
{
    'each: for item in items {
        if cycles.has(item.name.text.as_slice()) {
            notes.note(alloc, Side::Domain, CheckKind::CyclicType, &item.name)?;
        }
    }
    Ok(())
}

fn note_cyclic(alloc: Global, named: &Named, notes: &mut Notes) -> Result<(), NoMemory>
    ensures { OnOk result (Noted notes.old notes.new (cyclic_types named.now.domain.types named.now.domain.types)) }
{
    let cycles = Cycles::find(alloc, named.order())?;
    note_cycles(alloc, &cycles, named.domain().types.as_slice(), notes)
}

fn note_unknown_types(
    alloc: Global,
    named: &Named,
    side: Side,
    items: &[Typed],
    notes: &mut Notes,
) -> Result<(), NoMemory>
    ensures { OnOk result (Noted notes.old notes.new (unknown_types named.now.domain.types side items.now)) }
{
    let order = named.order();
    'each: for item in items {
        if !order.is_declared(item.kind.text.as_slice()) {
            notes.note(alloc, side, CheckKind::UnknownType, &item.kind)?;
        }
    }
    Ok(())
}

/// Notes the faults of a typed list, where some names were seen before.
#[tactic(auto, using(crate::proofs::Noted::noted_append))]
pub(crate) fn note_typed<'a>(
    alloc: Global,
    named: &Named,
    side: Side,
    items: &'a [Typed],
    seen: &mut NameSet<'a>,
    notes: &mut Notes,
) -> Result<(), NoMemory>
    ensures faults { OnOk result (Noted notes.old notes.new (typed_faults named.now.domain.types side seen.old items.now)) }
    ensures after { OnOk result (seen.new ≡ with_names seen.old (names_of items.now)) }
{
    note_unknown_types(alloc, named, side, items, notes)?;
    let names = names_of(alloc, items)?;
    note_repeated(alloc, side, names.as_slice(), seen, notes)
}

// Notes the types that are declared again; the name of the type of all objects is taken.
fn note_repeated_types(alloc: Global, types: &[Typed], notes: &mut Notes) -> Result<(), NoMemory>
    ensures { OnOk result (Noted notes.old notes.new (repeated side_of.Domain (top_type ∷ []) (names_of types.now))) }
{
    let names = names_of(alloc, types)?;
    let mut seen = NameSet::new(alloc);
    seen.add(b"object")?;
    note_repeated(alloc, Side::Domain, names.as_slice(), &mut seen, notes)
}

/// Notes the faults of the types.
#[tactic(auto, using(crate::proofs::Noted::noted_append))]
pub(crate) fn note_types(alloc: Global, named: &Named, notes: &mut Notes) -> Result<(), NoMemory>
    ensures { OnOk result (Noted notes.old notes.new (types_faults named.now.domain.types)) }
{
    let types = named.domain().types.as_slice();
    note_repeated_types(alloc, types, notes)?;
    note_unknown_types(alloc, named, Side::Domain, types, notes)?;
    note_cyclic(alloc, named, notes)
}

fn note_two_sections(
    alloc: Global,
    first: &[Sig],
    second: &[Sig],
    notes: &mut Notes,
) -> Result<(), NoMemory>
    ensures { OnOk result (Noted notes.old notes.new (repeated_in_both first.now second.now)) }
{
    let first_names = heads_of(alloc, first)?;
    let second_names = heads_of(alloc, second)?;
    let mut seen = NameSet::new(alloc);
    note_repeated(
        alloc,
        Side::Domain,
        first_names.as_slice(),
        &mut seen,
        notes,
    )?;
    note_repeated(
        alloc,
        Side::Domain,
        second_names.as_slice(),
        &mut seen,
        notes,
    )
}

/// Notes the predicates and functions that are declared again.
pub(crate) fn note_heads(alloc: Global, named: &Named, notes: &mut Notes) -> Result<(), NoMemory>
    ensures { OnOk result (Noted notes.old notes.new (repeated_heads named.now.domain)) }
{
    let predicates = named.domain().predicates.as_slice();
    let functions = named.domain().functions.as_slice();
    if functions_first(predicates, functions) {
        return note_two_sections(alloc, functions, predicates, notes);
    }
    note_two_sections(alloc, predicates, functions, notes)
}

fn note_parameters(
    alloc: Global,
    named: &Named,
    params: &[Typed],
    notes: &mut Notes,
) -> Result<(), NoMemory>
    ensures { OnOk result (Noted notes.old notes.new (parameter_faults named.now.domain.types params.now)) }
{
    let mut seen = NameSet::new(alloc);
    note_typed(alloc, named, Side::Domain, params, &mut seen, notes)
}

/// Notes the faults of the parameters of predicates or functions.
pub(crate) fn note_signatures(
    alloc: Global,
    named: &Named,
    sigs: &[Sig],
    notes: &mut Notes,
) -> Result<(), NoMemory>
    ensures { OnOk result (Noted notes.old notes.new (signature_faults named.now.domain.types sigs.now)) }
{
    'each: for sig in sigs {
        note_parameters(alloc, named, sig.params.as_slice(), notes)?;
    }
    Ok(())
}

#[tactic(auto, using(crate::proofs::Noted::noted_append), unfolding(crate::specs::Checks::schema_faults))]
fn note_schema(
    alloc: Global,
    named: &Named,
    schema: &Schema,
    notes: &mut Notes,
) -> Result<(), NoMemory>
    ensures { OnOk result (Noted notes.old notes.new (schema_faults named.now schema.now)) }
{
    let params = schema.params.as_slice();
    let scope = Scope {
        named,
        side: Side::Domain,
        params,
    };
    note_parameters(alloc, named, params, notes)?;
    note_condition(alloc, &scope, &schema.pre, notes)?;
    note_effects(alloc, &scope, schema.effects.as_slice(), notes)
}

/// Notes the faults inside actions.
pub(crate) fn note_schemas(
    alloc: Global,
    named: &Named,
    schemas: &[Schema],
    notes: &mut Notes,
) -> Result<(), NoMemory>
    ensures { OnOk result (Noted notes.old notes.new (flat_map (schema_faults named.now) schemas.now)) }
{
    'each: for schema in schemas {
        note_schema(alloc, named, schema, notes)?;
    }
    Ok(())
}
