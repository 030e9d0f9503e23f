//! The faults of atoms: their names, their numbers of arguments, and the arguments.

ghost use Rattle.std.specs.Prelude.{◌≡◌, OnOk, IfOk, drop, slice_get};
ghost use Rattle.std.specs.Option.{option_copied};
ghost use Rattle.pddl_types.specs.Pairs.{argument_name};
ghost use Rattle.pddl_types.specs.UseFaults.{argument_faults, arguments_faults, atom_faults, declared_faults, kind_faults, suits};
ghost use Rattle.pddl_types.specs.internal.Notes.{Noted};

use crate::faults::{CheckKind, Side};
use crate::first::Notes;
use crate::named::Named;
use crate::pairs::Sort;
use num_ends::NoMemory;
use pddl_terms::{Arg, Atom, Name, Sig, Typed};
use std::alloc::Global;

/// Where names are looked up: in which file, and which parameters variables are of.
#[derive(Clone, Copy)]
pub(crate) struct Scope<'a> {
    pub(crate) named: &'a Named,
    pub(crate) side: Side,
    pub(crate) params: &'a [Typed],
}

pub(crate) fn argument_name(arg: &Arg) -> &Name
    ensures { result.now ≡ argument_name arg.now }
{
    match arg {
        Arg::Var(name) => name,
        Arg::Obj(name) => name,
    }
}

fn suits(named: &Named, arg: &Arg, own: &[u8], wanted: &[u8]) -> bool
    ensures { result ≡ suits named.now.domain.types arg.now own.now wanted.now }
{
    let order = named.order();
    match arg {
        Arg::Var(_) => order.is_within(own, wanted) || order.descends(wanted, own),
        Arg::Obj(_) => order.is_within(own, wanted),
    }
}

fn note_kind(
    alloc: Global,
    scope: &Scope,
    wanted: Option<&Typed>,
    arg: &Arg,
    own: &Typed,
    notes: &mut Notes,
) -> Result<(), NoMemory>
    ensures { OnOk result (Noted notes.old notes.new (kind_faults scope.now.named.now scope.now.side (option_copied wanted.entry) arg.now own.now)) }
{
    if let Some(wanted) = wanted {
        let fits = suits(
            scope.named,
            arg,
            own.kind.text.as_slice(),
            wanted.kind.text.as_slice(),
        );
        if !fits {
            notes.note(alloc, scope.side, CheckKind::WrongType, argument_name(arg))?;
        }
    }
    Ok(())
}

/// Notes the faults of an argument in the place of a parameter, if it stands in the place of one.
pub(crate) fn note_argument(
    alloc: Global,
    scope: &Scope,
    wanted: Option<&Typed>,
    arg: &Arg,
    notes: &mut Notes,
) -> Result<(), NoMemory>
    ensures { OnOk result (Noted notes.old notes.new (argument_faults scope.now.named.now scope.now.side scope.now.params.now (option_copied wanted.entry) arg.now)) }
{
    match scope.named.named_by(scope.side, scope.params, arg) {
        Some(own) => note_kind(alloc, scope, wanted, arg, own, notes),
        None => notes.note(
            alloc,
            scope.side,
            CheckKind::UnknownName,
            argument_name(arg),
        ),
    }
}

// Notes the faults of an argument in the place of the first parameter, and gives the others.
fn note_first<'a>(
    alloc: Global,
    scope: &Scope,
    wanted: &'a [Typed],
    arg: &Arg,
    notes: &mut Notes,
) -> Result<&'a [Typed], NoMemory>
    ensures rest { IfOk result (λ rest. rest.now ≡ drop 1 wanted.now) }
    ensures faults { OnOk result (Noted notes.old notes.new (argument_faults scope.now.named.now scope.now.side scope.now.params.now (slice_get wanted.now 0) arg.now)) }
{
    match wanted {
        [] => {
            note_argument(alloc, scope, None, arg, notes)?;
            Ok(wanted)
        }
        [first, rest @ ..] => {
            note_argument(alloc, scope, Some(first), arg, notes)?;
            Ok(rest)
        }
    }
}

fn note_arguments(
    alloc: Global,
    scope: &Scope,
    wanted: &[Typed],
    args: &[Arg],
    notes: &mut Notes,
) -> Result<(), NoMemory>
    ensures { OnOk result (Noted notes.old notes.new (arguments_faults scope.now.named.now scope.now.side scope.now.params.now wanted.now args.now)) }
{
    let mut wanted = wanted;
    'each: for arg in args {
        wanted = note_first(alloc, scope, wanted, arg, notes)?;
    }
    Ok(())
}

fn note_declared(
    alloc: Global,
    scope: &Scope,
    atom: &Atom,
    sig: &Sig,
    notes: &mut Notes,
) -> Result<(), NoMemory>
    ensures { OnOk result (Noted notes.old notes.new (declared_faults scope.now.named.now scope.now.side scope.now.params.now atom.now sig.now)) }
{
    if sig.params.len() == atom.args.len() {
        return note_arguments(
            alloc,
            scope,
            sig.params.as_slice(),
            atom.args.as_slice(),
            notes,
        );
    }
    notes.note(alloc, scope.side, CheckKind::Arity, &atom.head)?;
    note_arguments(alloc, scope, &[], atom.args.as_slice(), notes)
}

/// Notes the faults of an atom whose name stands for a predicate or a function.
pub(crate) fn note_atom(
    alloc: Global,
    scope: &Scope,
    sort: Sort,
    atom: &Atom,
    notes: &mut Notes,
) -> Result<(), NoMemory>
    ensures { OnOk result (Noted notes.old notes.new (atom_faults scope.now.named.now scope.now.side scope.now.params.now sort atom.now)) }
{
    match scope.named.sig_of(sort, atom.head.text.as_slice()) {
        Some(sig) => note_declared(alloc, scope, atom, sig, notes),
        None => {
            notes.note(alloc, scope.side, CheckKind::UnknownName, &atom.head)?;
            note_arguments(alloc, scope, &[], atom.args.as_slice(), notes)
        }
    }
}
