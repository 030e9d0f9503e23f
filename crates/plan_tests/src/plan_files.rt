//! Plan files, line by line.

use num_ends::List;
use plan_text::{PlanFault, read_plan, write_step};
use std::alloc::Global;
use std::test::Fail;

// The lines of the steps that a short text reads as.
fn rewritten(alloc: Global, text: &str) -> Result<List<u8>, PlanFault> {
    if text.len() > 64 {
        return Err(PlanFault::NoMemory);
    }
    let steps = read_plan(alloc, text.as_bytes())?;
    let mut out = List::new(alloc);
    for step in steps.as_slice() {
        write_step(alloc, &mut out, step)?;
    }
    Ok(out)
}

fn is_read_as(alloc: Global, text: &str, lines: &str) -> bool {
    match rewritten(alloc, text) {
        Ok(out) => out.as_slice() == lines.as_bytes(),
        Err(_) => false,
    }
}

fn is_bad_at(alloc: Global, text: &str, line: u32) -> bool {
    match rewritten(alloc, text) {
        Ok(_) => false,
        Err(fault) => fault == PlanFault::BadLine(line),
    }
}

#[test]
fn plans_are_read_and_written(rt: HostRuntime) -> Result<(), Fail> {
    let alloc = rt.alloc();
    let rows = [
        ("(inc)\n(inc)\n", "(inc)\n(inc)\n"),
        ("(inc)\n(inc)", "(inc)\n(inc)\n"),
        ("", ""),
        ("\n \t\r\n; comment\n\t;(a)", ""),
        ("0: (MOVE a B) [1]", "(move a b)\n"),
        ("00.5 : ( move\ta  b\r)[ 1 ] \r\n", "(move a b)\n"),
        ("1:(_a.-9 Z_)[007.250]", "(_a.-9 z_)\n"),
        ("(a)[1]", "(a)\n"),
    ];
    for (text, lines) in rows {
        assert!(rt; is_read_as(alloc, text, lines), "{text}");
    }
    Ok(())
}

#[test]
fn lines_of_another_form_are_bad(rt: HostRuntime) -> Result<(), Fail> {
    let alloc = rt.alloc();
    let rows = [
        ("(inc)\ninc", 2),
        (";\n\n(inc)\n()\n(", 4),
        (".5: (a)", 1),
        ("1.: (a)", 1),
        ("-1: (a)", 1),
        ("1 (a)", 1),
        (": (a)", 1),
        ("1: 2: (a)", 1),
        ("(a) x", 1),
        ("(a) [1", 1),
        ("(a) []", 1),
        ("(a) [1] [2]", 1),
        ("(a) ; comment", 1),
        ("(a ; comment)", 1),
        ("(a ?b)", 1),
        ("(a 1)", 1),
        ("(a (b))", 1),
        ("(a)(b)", 1),
        ("(a", 1),
        ("(a\n)", 1),
        ("\x0c(a)", 1),
    ];
    for (text, line) in rows {
        assert!(rt; is_bad_at(alloc, text, line), "{text}");
    }
    Ok(())
}
