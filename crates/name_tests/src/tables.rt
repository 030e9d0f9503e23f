//! Names found by hash, and the order of types.

use name_table::{NameSet, NameTable, typed_table};
use num_ends::{List, NoMemory, Text};
use pddl_terms::{Name, Typed, What};
use std::alloc::Global;
use std::test::Fail;
use type_order::{Cycles, TypeOrder};

fn name(alloc: Global, text: &str) -> Result<Name, NoMemory> {
    let text = Text::from_vec(Vec::from_slice(alloc, text.as_bytes())?);
    Ok(Name { text, at: 0 })
}

fn push(alloc: Global, items: &mut List<Typed>, text: &str, kind: &str) -> Result<(), NoMemory> {
    let name_there = name(alloc, text)?;
    let kind_there = name(alloc, kind)?;
    items.push(Typed {
        name: name_there,
        kind: kind_there,
    })
}

// A chain from `object` down to `c`, a cycle of `x` and `y`, and `z` below it; `b` stands again.
fn types(alloc: Global) -> Result<List<Typed>, NoMemory> {
    let mut items = List::new(alloc);
    let rows = [
        ("a", "object"),
        ("b", "a"),
        ("c", "b"),
        ("b", "x"),
        ("x", "y"),
        ("y", "x"),
        ("z", "x"),
    ];
    for (text, kind) in rows {
        push(alloc, &mut items, text, kind)?;
    }
    Ok(items)
}

fn tables_hold(alloc: Global) -> Result<bool, NoMemory> {
    let mut table = NameTable::new(alloc);
    table.add(alloc, b"p", 7)?;
    table.add(alloc, b"q", 5)?;
    table.add(alloc, b"p", 9)?;
    let mut set = NameSet::new(alloc);
    let first = set.add(b"p")?;
    let second = set.add(b"p")?;
    Ok(
        table.number(b"p") == Some(7)
            && table.number(b"q") == Some(5)
            && table.number(b"").is_none()
            && first
            && !second
            && set.has(b"p")
            && !set.has(b"q"),
    )
}

#[test]
fn names_keep_their_first_numbers(rt: HostRuntime) -> Result<(), Fail> {
    match tables_hold(rt.alloc()) {
        Ok(held) => assert!(rt; held),
        Err(_) => return Err(Fail::new("no memory")),
    }
    Ok(())
}

fn order_holds(alloc: Global) -> Result<bool, NoMemory> {
    let items = types(alloc)?;
    let table = typed_table(alloc, items.as_slice())?;
    let order = TypeOrder::new(items.as_slice(), &table);
    Ok(
        order.is_declared(b"object")
            && order.is_declared(b"z")
            && !order.is_declared(b"d")
            && order.descends(b"c", b"a")
            && order.descends(b"b", b"object")
            && !order.descends(b"a", b"c")
            && !order.descends(b"c", b"c")
            && order.is_within(b"c", b"c")
            && order.descends(b"z", b"y")
            && !order.descends(b"z", b"object")
            && order.parent(b"object").is_none(),
    )
}

#[test]
fn types_descend_from_their_first_declarations(rt: HostRuntime) -> Result<(), Fail> {
    match order_holds(rt.alloc()) {
        Ok(held) => assert!(rt; held),
        Err(_) => return Err(Fail::new("no memory")),
    }
    Ok(())
}

fn cycles_hold(alloc: Global) -> Result<bool, NoMemory> {
    let items = types(alloc)?;
    let table = typed_table(alloc, items.as_slice())?;
    let cycles = Cycles::find(alloc, TypeOrder::new(items.as_slice(), &table))?;
    Ok(
        cycles.has(b"x")
            && cycles.has(b"y")
            && !cycles.has(b"z")
            && !cycles.has(b"b")
            && !cycles.has(b"object"),
    )
}

#[test]
fn types_on_a_cycle_are_found(rt: HostRuntime) -> Result<(), Fail> {
    match cycles_hold(rt.alloc()) {
        Ok(held) => assert!(rt; held),
        Err(_) => return Err(Fail::new("no memory")),
    }
    Ok(())
}

#[test]
fn limits_are_those_of_the_language(rt: HostRuntime) -> Result<(), Fail> {
    let rows = [
        (What::Objects, 1_024),
        (What::Parameters, 8),
        (What::Effects, 256),
        (What::Letters, 128),
        (What::Facts, 4_096),
        (What::Fluents, 256),
        (What::Actions, 20_000),
        (What::Prefixes, 5_000_000),
        (What::Supporters, 200_000),
    ];
    for (what, limit) in rows {
        assert_eq!(rt; what.limit(), limit);
    }
    Ok(())
}
