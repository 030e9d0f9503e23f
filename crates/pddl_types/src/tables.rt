//! The tables by which the declarations of a domain are found.

ghost use Rattle.std.specs.Prelude.{◌≡◌, IfOk};
ghost use Rattle.name_table.specs.Tables.{numbered};
ghost use Rattle.name_table.specs.TypedLists.{names_of};
ghost use Rattle.pddl_types.specs.Pairs.{changed_heads, heads_of, schema_names};
ghost use Rattle.pddl_types.specs.internal.Tables.{AreTablesOf};

use crate::letting_go::discard_table;
use crate::lists::{changed_heads, heads_of, schema_names};
use name_table::{NameTable, typed_table};
use num_ends::NoMemory;
use pddl_terms::{Domain, Schema, Sig};
use std::alloc::Global;

/// The declared names of a domain, each with the number of its first place in its list, and the functions that change.
#[derive(Drop)]
pub(crate) struct DomainTables {
    pub(crate) types: NameTable,
    pub(crate) constants: NameTable,
    pub(crate) predicates: NameTable,
    pub(crate) functions: NameTable,
    pub(crate) schemas: NameTable,
    pub(crate) changed: NameTable,
}

fn head_table(alloc: Global, sigs: &[Sig]) -> Result<NameTable, NoMemory>
    ensures { IfOk result (λ table. table ≡ numbered (heads_of sigs.now)) }
{
    let names = heads_of(alloc, sigs)?;
    NameTable::numbered(alloc, names.as_slice())
}

fn schema_table(alloc: Global, schemas: &[Schema]) -> Result<NameTable, NoMemory>
    ensures { IfOk result (λ table. table ≡ numbered (schema_names schemas.now)) }
{
    let names = schema_names(alloc, schemas)?;
    NameTable::numbered(alloc, names.as_slice())
}

fn changed_table(alloc: Global, schemas: &[Schema]) -> Result<NameTable, NoMemory>
    ensures { IfOk result (λ table. table ≡ numbered (changed_heads schemas.now)) }
{
    let names = changed_heads(alloc, schemas)?;
    NameTable::numbered(alloc, names.as_slice())
}

// The tables of the types and of the constants.
fn typed_tables(alloc: Global, domain: &Domain) -> Result<(NameTable, NameTable), NoMemory>
    ensures types { IfOk result (λ tables. tables.0 ≡ numbered (names_of domain.now.types)) }
    ensures constants { IfOk result (λ tables. tables.1 ≡ numbered (names_of domain.now.constants)) }
{
    let types = typed_table(alloc, domain.types.as_slice())?;
    let constants = typed_table(alloc, domain.constants.as_slice())?;
    Ok((types, constants))
}

// The tables of the predicates and of the functions.
fn head_tables(alloc: Global, domain: &Domain) -> Result<(NameTable, NameTable), NoMemory>
    ensures predicates { IfOk result (λ tables. tables.0 ≡ numbered (heads_of domain.now.predicates)) }
    ensures functions { IfOk result (λ tables. tables.1 ≡ numbered (heads_of domain.now.functions)) }
{
    let predicates = head_table(alloc, domain.predicates.as_slice())?;
    let functions = head_table(alloc, domain.functions.as_slice())?;
    Ok((predicates, functions))
}

// The tables of the actions and of the functions that they change.
fn schema_tables(alloc: Global, schemas: &[Schema]) -> Result<(NameTable, NameTable), NoMemory>
    ensures schemas { IfOk result (λ tables. tables.0 ≡ numbered (schema_names schemas.now)) }
    ensures changed { IfOk result (λ tables. tables.1 ≡ numbered (changed_heads schemas.now)) }
{
    let names = schema_table(alloc, schemas)?;
    let changed = changed_table(alloc, schemas)?;
    Ok((names, changed))
}

impl DomainTables {
    pub(crate) fn new(alloc: Global, domain: &Domain) -> Result<DomainTables, NoMemory>
        ensures { IfOk result (AreTablesOf domain.now) }
    {
        let (types, constants) = typed_tables(alloc, domain)?;
        let (predicates, functions) = head_tables(alloc, domain)?;
        let (schemas, changed) = schema_tables(alloc, domain.schemas.as_slice())?;
        Ok(DomainTables {
            types,
            constants,
            predicates,
            functions,
            schemas,
            changed,
        })
    }

    /// Lets the tables go.
    pub(crate) fn discard(self) {
        let DomainTables {
            types,
            constants,
            predicates,
            functions,
            schemas,
            changed,
        } = self;
        discard_table(types);
        discard_table(constants);
        discard_table(predicates);
        discard_table(functions);
        discard_table(schemas);
        discard_table(changed);
    }
}
