//! Linear forms of comparisons, and repetitions.

use ground_task::{GExpr, Rel};
use num_ends::{Dec, List, NoMemory};
use simple_atoms::{FAR, Linear, linear_form, repetitions};
use sqlite_items::Boxed;
use std::alloc::Global;
use std::test::Fail;

fn tenths(n: i16) -> Dec {
    Dec {
        n: i128::from(n),
        p: 1,
    }
}

/// A coefficient times a fluent, both ways round.
fn weighted(alloc: Global, coefficient: i16, fluent: u32, turned: bool) -> Result<GExpr, NoMemory> {
    let factor = Boxed::new(alloc, GExpr::Const(tenths(coefficient)))?;
    let read = Boxed::new(alloc, GExpr::Read(fluent))?;
    if turned {
        Ok(GExpr::Mul(read, factor))
    } else {
        Ok(GExpr::Mul(factor, read))
    }
}

fn difference(alloc: Global, left: GExpr, right: GExpr) -> Result<GExpr, NoMemory> {
    let left = Boxed::new(alloc, left)?;
    let right = Boxed::new(alloc, right)?;
    Ok(GExpr::Sub(left, right))
}

fn sum(alloc: Global, left: GExpr, right: GExpr) -> Result<GExpr, NoMemory> {
    let left = Boxed::new(alloc, left)?;
    let right = Boxed::new(alloc, right)?;
    Ok(GExpr::Add(left, right))
}

fn has(number: Dec, n: i128, p: u8) -> bool {
    number.n == n && number.p == p
}

// 1.7 * y + x - 3 * y >= 9.4: the terms stand in the order of the fluents, and 1.7 - 3 is -1.3.
#[test]
fn form_in_order(rt: HostRuntime) -> Result<(), Fail> {
    let alloc = rt.alloc();
    let first = sum(alloc, weighted(alloc, 17, 1, false)?, GExpr::Read(0))?;
    let left = difference(alloc, first, weighted(alloc, 30, 1, true)?)?;
    let right = GExpr::Const(tenths(94));
    let Some(form) = linear_form(alloc, Rel::GreaterEqual, &left, &right)? else {
        return Err(Fail::from(NoMemory));
    };
    assert!(rt; !form.strict && !form.equal);
    assert!(rt; has(form.constant, -94, 1));
    let terms = form.terms.as_slice();
    assert_eq!(rt; terms.len(), 2);
    assert!(rt; terms[0].0 == 0 && has(terms[0].1, 1, 0));
    assert!(rt; terms[1].0 == 1 && has(terms[1].1, -13, 1));
    Ok(())
}

// Terms that cancel are gone, also those of a factor: (x - x) * y is linear, and x * y isn't.
#[test]
fn forms_of_products(rt: HostRuntime) -> Result<(), Fail> {
    let alloc = rt.alloc();
    let nothing = difference(alloc, GExpr::Read(0), GExpr::Read(0))?;
    let product = GExpr::Mul(
        Boxed::new(alloc, nothing)?,
        Boxed::new(alloc, GExpr::Read(1))?,
    );
    let zero = GExpr::Const(tenths(0));
    let Some(form) = linear_form(alloc, Rel::Less, &product, &zero)? else {
        return Err(Fail::from(NoMemory));
    };
    assert!(rt; form.strict && form.terms.len() == 0 && has(form.constant, 0, 0));
    let square = GExpr::Mul(
        Boxed::new(alloc, GExpr::Read(0))?,
        Boxed::new(alloc, GExpr::Read(1))?,
    );
    let found = linear_form(alloc, Rel::Less, &square, &zero)?;
    assert!(rt; found.is_none());
    Ok(())
}

fn form(alloc: Global, strict: bool, equal: bool) -> Linear {
    Linear {
        strict,
        equal,
        terms: List::new(alloc),
        constant: tenths(0),
    }
}

// Values and gains in tenths: what is to be above 0 is passed, what is to be at least 0 is reached, and what is to be 0
// is reached or passed from either side.
#[test]
fn least_repetitions(rt: HostRuntime) -> Result<(), Fail> {
    let alloc = rt.alloc();
    let rows = [
        ((true, false), -30, 10, Some(4)),
        ((true, false), 0, 10, Some(1)),
        ((false, false), -30, 10, Some(3)),
        ((false, false), -14, 7, Some(2)),
        ((false, false), -1, 10, Some(1)),
        ((false, false), -30, 0, None),
        ((false, false), -30, -10, None),
        ((false, true), -50, 20, Some(3)),
        ((false, true), 50, -20, Some(3)),
        ((false, true), 50, 20, None),
        ((false, true), 50, 0, None),
    ];
    for (i, ((strict, equal), value, gain, wanted)) in rows.iter().enumerate() {
        let form = form(alloc, *strict, *equal);
        let found = repetitions(&form, tenths(*value), tenths(*gain));
        assert_eq!(rt; found, *wanted, "row {i}");
    }
    let far = Dec {
        n: -1_000_000_000_000,
        p: 0,
    };
    let reaching = form(alloc, false, false);
    assert_eq!(rt; repetitions(&reaching, far, tenths(1)), Some(FAR));
    Ok(())
}
