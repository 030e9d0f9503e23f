//! Small lists and declarations.

ghost use Rattle.std.specs.Prelude.{◌≤◌, ◌^◌, length};

use num_ends::List;
use pddl_declarations::functions::functions_list;
use pddl_declarations::kinds::Kind;
use pddl_declarations::typed::typed_list;
use pddl_declarations::types::types_list;
use pddl_terms::{Typed, What};
use pddl_trees::faults::{Fault, Reason};
use pddl_trees::forms::position;
use pddl_trees::names::parts_of;
use pddl_trees::notes::Notes;
use sexp_text::{Tree, read_trees};
use std::alloc::Global;
use std::test::Fail;

// The last tree of a text.
fn tree(alloc: Global, text: &[u8]) -> Option<Tree>
    requires { length text.now ≤ 2 ^ 30 }
{
    read_trees(alloc, text).ok()?.pop()
}

fn typed(alloc: Global, text: &[u8], kind: Kind, notes: &mut Notes) -> Option<List<Typed>>
    requires { length text.now ≤ 2 ^ 30 }
{
    let list = tree(alloc, text)?;
    typed_list(alloc, text, kind, position(&list), parts_of(&list)?, notes).ok()
}

// The first fault, where the list was read.
fn typed_fault(alloc: Global, text: &[u8], kind: Kind) -> Option<Option<Fault>>
    requires { length text.now ≤ 2 ^ 30 }
{
    let mut notes = Notes::new();
    typed(alloc, text, kind, &mut notes)?;
    Some(notes.first)
}

fn types(alloc: Global, text: &[u8], notes: &mut Notes) -> Option<List<Typed>>
    requires { length text.now ≤ 2 ^ 30 }
{
    let list = tree(alloc, text)?;
    types_list(alloc, text, position(&list), parts_of(&list)?, notes).ok()
}

// The first fault, where the list was read.
fn types_fault(alloc: Global, text: &[u8]) -> Option<Option<Fault>>
    requires { length text.now ≤ 2 ^ 30 }
{
    let mut notes = Notes::new();
    types(alloc, text, &mut notes)?;
    Some(notes.first)
}

// The first fault, where the list was read.
fn functions_fault(alloc: Global, text: &[u8]) -> Option<Option<Fault>>
    requires { length text.now ≤ 2 ^ 30 }
{
    let mut notes = Notes::new();
    let list = tree(alloc, text)?;
    functions_list(alloc, text, position(&list), parts_of(&list)?, &mut notes).ok()?;
    Some(notes.first)
}

// The first fault of a list that was read.
fn fault(at: u32, reason: Reason) -> Option<Option<Fault>> {
    Some(Some(Fault { at, reason }))
}

#[test]
fn lists_have_their_first_faults(rt: HostRuntime) -> Result<(), Fail> {
    let alloc = rt.alloc();
    let past = Reason::TooMany(What::Parameters);
    assert!(rt; typed_fault(alloc, b"(- t)", Kind::Names) == fault(1, Reason::Shape));
    assert!(rt; typed_fault(alloc, b"(a -)", Kind::Names) == fault(0, Reason::Shape));
    assert!(rt;
        typed_fault(alloc, b"(?a ?b ?c ?d ?e ?f ?g ?h ?i)", Kind::Parameters) == fault(25, past)
    );
    assert!(rt;
        typed_fault(alloc, b"(?a ?b ?c ?d ?e ?f ?g ?h - t)", Kind::Parameters) == Some(None)
    );
    assert!(rt; types_fault(alloc, b"(number - (x))") == fault(1, Reason::Shape));
    assert!(rt; types_fault(alloc, b"(a - number)") == fault(5, Reason::Shape));
    Ok(())
}

#[test]
fn functions_have_their_first_faults(rt: HostRuntime) -> Result<(), Fail> {
    let alloc = rt.alloc();
    assert!(rt; functions_fault(alloc, b"((x) - number (y ?a - t))") == Some(None));
    assert!(rt; functions_fault(alloc, b"((x) - object)") == fault(7, Reason::Unsupported));
    Ok(())
}

fn is_typed(typed: Option<&Typed>, name: &[u8], at: u32, kind: &[u8], kind_at: u32) -> bool {
    match typed {
        None => false,
        Some(typed) => {
            typed.name.text.as_slice() == name
                && typed.name.at == at
                && typed.kind.text.as_slice() == kind
                && typed.kind.at == kind_at
        }
    }
}

fn are_names_typed(alloc: Global) -> bool {
    let mut notes = Notes::new();
    match typed(alloc, b"(A b - t c)", Kind::Names, &mut notes) {
        None => false,
        Some(list) => {
            let list = list.as_slice();
            list.len() == 3
                && is_typed(list.first(), b"a", 1, b"t", 7)
                && is_typed(list.get(1), b"b", 3, b"t", 7)
                && is_typed(list.get(2), b"c", 9, b"object", 9)
        }
    }
}

fn are_types_implied(alloc: Global) -> bool {
    let mut notes = Notes::new();
    match types(alloc, b"(a - b c - b d)", &mut notes) {
        None => false,
        Some(list) => {
            let list = list.as_slice();
            list.len() == 4
                && is_typed(list.get(2), b"d", 13, b"object", 13)
                && is_typed(list.get(3), b"b", 5, b"object", 5)
        }
    }
}

#[test]
fn names_have_their_types(rt: HostRuntime) -> Result<(), Fail> {
    let alloc = rt.alloc();
    assert!(rt; are_names_typed(alloc));
    assert!(rt; are_types_implied(alloc));
    Ok(())
}
