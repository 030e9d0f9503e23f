//! The lines of refusals.

use num_ends::{List, NoMemory, Text};
use pair_text::{LineReason, Place, Reason, Refusal, Source, write_refusal};
use pddl_terms::What;
use pddl_types::CheckKind;
use std::alloc::Global;
use std::test::Fail;

fn is_line(alloc: Global, refusal: Refusal, line: &str) -> bool {
    let mut out = List::new(alloc);
    write_refusal(alloc, &refusal, &mut out).is_ok() && out.as_slice() == line.as_bytes()
}

fn text(alloc: Global, bytes: &str) -> Result<Text, NoMemory> {
    let bytes = Vec::from_slice(alloc, bytes.as_bytes())?;
    Ok(Text::from_vec(bytes))
}

#[test]
fn lines_without_a_place(rt: HostRuntime) -> Result<(), Fail> {
    let alloc = rt.alloc();
    assert!(rt;
        is_line(
            alloc,
            Refusal::TooLarge(Source::Domain),
            "REFUSED domain TOOLARGE\n"
        )
    );
    assert!(rt; is_line(alloc, Refusal::BadLine(2), "REFUSED plan 2 BADLINE\n"));
    let early = Refusal::InCertificate(7, LineReason::EndsEarly);
    assert!(rt; is_line(alloc, early, "REFUSED certificate 7 ENDSEARLY\n"));
    assert!(rt; is_line(alloc, Refusal::Unbuilt, "REFUSED UNBUILT\n"));
    let rows = [
        (What::Actions, "REFUSED TOOMANY actions 20000\n"),
        (What::Facts, "REFUSED TOOMANY facts 4096\n"),
        (What::Fluents, "REFUSED TOOMANY fluents 256\n"),
        (What::Objects, "REFUSED TOOMANY objects 1024\n"),
        (What::Prefixes, "REFUSED TOOMANY prefixes 5000000\n"),
        (What::Supporters, "REFUSED TOOMANY supporters 200000\n"),
    ];
    for (what, line) in rows {
        assert!(rt; is_line(alloc, Refusal::Limit(what), line), "{line}");
    }
    Ok(())
}

fn named_lines_hold(alloc: Global) -> Result<bool, NoMemory> {
    let unset = Refusal::Unset(text(alloc, "(level)")?);
    let places = Refusal::Places(text(alloc, "goal")?);
    let range = Refusal::Range(text(alloc, "(move a b)")?);
    Ok(
        is_line(alloc, unset, "REFUSED UNSET (level)\n")
            && is_line(alloc, places, "REFUSED PLACES goal\n")
            && is_line(alloc, range, "REFUSED RANGE (move a b)\n"),
    )
}

#[test]
fn lines_with_a_text(rt: HostRuntime) -> Result<(), Fail> {
    match named_lines_hold(rt.alloc()) {
        Ok(held) => assert!(rt; held),
        Err(_) => return Err(Fail::new("no memory")),
    }
    Ok(())
}

fn divisor(alloc: Global) -> Result<Refusal, NoMemory> {
    let name = text(alloc, "n")?;
    let place = Place {
        line: 1,
        column: 90,
    };
    Ok(Refusal::At(Source::Domain, place, Reason::Ill(CheckKind::Divide, name)))
}

#[test]
fn no_name_is_told_of_a_divisor(rt: HostRuntime) -> Result<(), Fail> {
    let alloc = rt.alloc();
    match divisor(alloc) {
        Ok(refusal) => assert!(rt; is_line(alloc, refusal, "REFUSED domain 1:90 DIVIDE\n")),
        Err(_) => return Err(Fail::new("no memory")),
    }
    Ok(())
}
