//! Calls of the program over files and an output in memory.

use edge_io::{MemoryFiles, MemorySink};
use enhsp_run::{Ended, run_alone};
use num_ends::{List, Text};
use std::alloc::{AllocError, Global};
use std::test::Fail;

const UP: &str = "(define (domain d) (:functions (x)) (:action inc :effect (increase (x) 1)))";

const DOWN: &str = "(define (domain d) (:functions (x)) (:action dec :effect (increase (x) -1)))";

const THREE: &str = "(define (problem p) (:domain d) (:init (= (x) 0)) (:goal (>= (x) 3)))";

const ONE: &str = "(define (problem p) (:domain d) (:init (= (x) 0)) (:goal (>= (x) 1)))";

const FIVE: &str = "(define (problem p) (:domain d) (:init (= (x) 0)) (:goal (>= (x) 5)))";

const SET: &str = "(define (domain d) (:functions (x)) (:action set :effect (assign (x) 5)))";

const ABOVE_FIVE: &str = "(define (problem p) (:domain d) (:init (= (x) 3)) (:goal (> (x) 5)))";

const AT_LEAST_FIVE: &str = "(define (problem p) (:domain d) (:goal (>= (x) 5)) (:init (= (x) 3)))";

const GUARDED: &str =
    "(define (domain d) (:action inc :precondition (< (x) 2) :effect (increase (x) 1))
 (:requirements :numeric-fluents) (:types truck) (:predicates (done)) (:functions (x) - number))";

const TRANSFER: &str = "(define (domain d) (:functions (x ?f)) (:action transfer :parameters (?f ?g)
 :precondition (>= (x ?f) 1) :effect (and (decrease (x ?f) 1) (increase (x ?g) 1))))";

const TWO_PLACES: &str =
    "(define (problem p) (:domain d) (:objects a b) (:init (= (x a) 1) (= (x b) 0)) (:goal (= (x b) 1)))";

const ONE_PLACE: &str =
    "(define (problem p) (:domain d) (:objects a b) (:init (= (x a) 1) (= (x b) 0)) (:goal (= (x a) 1)))";

const MIX: &str = "(define (domain d) (:functions (x ?f)) (:action mix :parameters (?f ?g)
 :effect (and (assign (x ?f) 3) (increase (x ?g) 1))))";

const SQUARE: &str =
    "(define (domain d) (:functions (x)) (:action square :effect (assign (x) (* (x) (x)))))";

const HUGE: &str =
    "(define (problem p) (:domain d) (:init (= (x) 100000000000000000000)) (:goal (< (x) 0)))";

const SMALL: &str = "(define (domain d) (:predicates (p)) (:functions (x) (y))
 (:action move :precondition (>= (x) 1) :effect (and (increase (x) 1) (decrease (y) 2))))";

const SMALL_GOAL: &str =
    "(define (problem p) (:domain d) (:init (= (y) -4) (= (x) 6)) (:goal (and (= (y) 3))))";

const RELAX: &str = "relax -o d.pddl -f p.pddl";

const VALIDATE: &str = "validate -o d.pddl -f p.pddl -p plan.txt";

const UNBUILT: &str = "REFUSED UNBUILT\n";

// The words, parted by single spaces, where `''` is the empty word; the texts of the files `d.pddl`, `p.pddl` and `plan.txt`; and
// the status and the bytes written.
static CALLS: [(&str, (&str, &str, &str), u8, &str); 48] = [
    // least closed boxes
    (RELAX, (UP, THREE, ""), 0, "MET\nbox (x)=[0,inf)\n"),
    (RELAX, (DOWN, ONE, ""), 1, "MISSED\nbox (x)=(-inf,0]\n"),
    (RELAX, (SET, ABOVE_FIVE, ""), 1, "MISSED\nbox (x)=[3,5]\n"),
    (RELAX, (SET, AT_LEAST_FIVE, ""), 0, "MET\nbox (x)=[3,5]\n"),
    (RELAX, (GUARDED, FIVE, ""), 1, "MISSED\nbox (x)=[0,3)\n"),
    (
        RELAX,
        (SMALL, SMALL_GOAL, ""),
        1,
        "MISSED\nbox (x)=[6,inf) (y)=(-inf,-4]\n",
    ),
    // parameters, facts, decimals, and conditions of all kinds
    (
        RELAX,
        (TRANSFER, TWO_PLACES, ""),
        0,
        "MET\nbox (x a)=[0,inf) (x b)=[0,inf)\n",
    ),
    (
        RELAX,
        (
            "(define (domain d) (:functions (x)) (:action inc :parameters (?v) :effect (increase (x) 1)))",
            THREE,
            "",
        ),
        1,
        "MISSED\nbox (x)=[0,0]\n",
    ),
    (
        RELAX,
        (
            "(define (domain d) (:predicates (p ?v)) (:functions (x)) (:action inc :effect (increase (x) 1)))",
            THREE,
            "",
        ),
        0,
        "MET\nbox (x)=[0,inf)\n",
    ),
    (
        RELAX,
        (
            "(define (domain d) (:predicates (p)) (:functions (x)) (:action inc :precondition (p) :effect (increase (x) 1)))",
            THREE,
            "",
        ),
        1,
        "MISSED\nbox (x)=[0,0]\n",
    ),
    (
        RELAX,
        (
            UP,
            "(define (problem p) (:domain d) (:init (= (x) 0)) (:goal (or (>= (x) 3))))",
            "",
        ),
        0,
        "MET\nbox (x)=[0,inf)\n",
    ),
    (
        RELAX,
        (
            UP,
            "(define (problem p) (:domain d) (:init (= (x) 0)) (:goal (and (and (>= (x) 3)))))",
            "",
        ),
        0,
        "MET\nbox (x)=[0,inf)\n",
    ),
    (
        RELAX,
        (
            "(define (domain d) (:functions (x)) (:action inc :precondition (<= 1 (x)) :effect (increase (x) 1)))",
            THREE,
            "",
        ),
        1,
        "MISSED\nbox (x)=[0,0]\n",
    ),
    (
        RELAX,
        (
            "(define (domain d) (:functions (x)) (:action inc :precondition (>= (x) 0.5) :effect (increase (x) 1)))",
            THREE,
            "",
        ),
        1,
        "MISSED\nbox (x)=[0,0]\n",
    ),
    (
        RELAX,
        (
            "(define (domain d) (:functions (x)) (:action inc :effect (scale-up (x) 2)))",
            THREE,
            "",
        ),
        1,
        "MISSED\nbox (x)=[0,0]\n",
    ),
    (
        RELAX,
        (
            "(define (domain d) (:predicates (p)) (:functions (x)) (:action inc :effect (and (increase (x) 1) (p))))",
            THREE,
            "",
        ),
        0,
        "MET\nbox (p)=any (x)=[0,inf)\n",
    ),
    (
        RELAX,
        (
            "(define (domain d) (:functions (x)) (:action dec :effect (decrease (x) 0.5)))",
            THREE,
            "",
        ),
        1,
        "MISSED\nbox (x)=(-inf,0]\n",
    ),
    (
        RELAX,
        (
            "(define (domain d) (:functions (x)) (:action inc :effect (and (increase (x) 1) (decrease (x) 2))))",
            THREE,
            "",
        ),
        1,
        "MISSED\nbox (x)=(-inf,0]\n",
    ),
    (
        RELAX,
        (
            UP,
            "(define (problem p) (:domain d) (:init) (:goal (>= (x) 3)))",
            "",
        ),
        4,
        "REFUSED UNSET (x)\n",
    ),
    (
        RELAX,
        (
            UP,
            "(define (problem p) (:domain d) (:init (= (x) 0.5)) (:goal (>= (x) 3)))",
            "",
        ),
        0,
        "MET\nbox (x)=[0.5,inf)\n",
    ),
    (
        RELAX,
        (
            SMALL,
            "(define (problem p) (:domain d) (:init (= (y) -4) (= (x) 6)) (:goal (and (= (x) 3))))",
            "",
        ),
        1,
        "MISSED\nbox (x)=[6,inf)\n",
    ),
    // first reasons against two texts
    (RELAX, ("", THREE, ""), 4, "REFUSED domain 1:1 SHAPE\n"),
    (
        RELAX,
        ("(define (domain d)", THREE, ""),
        4,
        "REFUSED domain 1:1 UNCLOSED\n",
    ),
    (
        RELAX,
        (
            "(define (domain d) (:requirements :durative-actions))",
            THREE,
            "",
        ),
        4,
        "REFUSED domain 1:35 UNSUPPORTED :durative-actions\n",
    ),
    (
        RELAX,
        (
            "(define (domain d)\n(:action a :parameters (?a ?b ?c ?d ?e ?f ?g ?h ?i)))",
            THREE,
            "",
        ),
        4,
        "REFUSED domain 2:49 TOOMANY parameters 8\n",
    ),
    (
        RELAX,
        (
            "(define (domain d) (:action a :effect (increase (z) 1)))",
            THREE,
            "",
        ),
        4,
        "REFUSED domain 1:50 UNKNOWNNAME z\n",
    ),
    (
        RELAX,
        (UP, "(define (problem p)\n (:domain d))", ""),
        4,
        "REFUSED problem 1:1 SHAPE\n",
    ),
    (
        RELAX,
        (
            UP,
            "(define (problem p) (:domain d)\n (:init (= (x) 0) (= (x) 1)) (:goal ()))",
            "",
        ),
        4,
        "REFUSED problem 2:23 DUPLICATE x\n",
    ),
    // plans
    (
        VALIDATE,
        (UP, THREE, "(inc)\n(inc)\n(inc)\n"),
        0,
        "VALID 3\n",
    ),
    (
        VALIDATE,
        (UP, THREE, "(inc)\n; once more\n(INC)"),
        1,
        "INVALID goal\n",
    ),
    (
        VALIDATE,
        (UP, THREE, "(inc)\ninc\n"),
        4,
        "REFUSED plan 2 BADLINE\n",
    ),
    (
        VALIDATE,
        (TRANSFER, ONE_PLACE, "(transfer a a)"),
        0,
        "VALID 1\n",
    ),
    (
        VALIDATE,
        (TRANSFER, ONE_PLACE, "(transfer b a)"),
        1,
        "INVALID 1 blocked\n",
    ),
    (
        VALIDATE,
        (TRANSFER, ONE_PLACE, "(transfer a c)"),
        1,
        "INVALID 1 illegal\n",
    ),
    (
        VALIDATE,
        (MIX, ONE_PLACE, "(mix b b)"),
        1,
        "INVALID 1 blocked\n",
    ),
    (VALIDATE, (SQUARE, HUGE, "(square)"), 3, "OVERFLOW 1\n"),
    (VALIDATE, (UP, "", "inc"), 4, "REFUSED problem 1:1 SHAPE\n"),
    // words that are no job
    ("", (UP, THREE, ""), 5, "USAGE\n"),
    ("plan -o d.pddl", (UP, THREE, ""), 5, "USAGE\n"),
    ("relax -o '' -f p.pddl", (UP, THREE, ""), 5, "USAGE\n"),
    (
        "relax -o d.pddl -f p.pddl --limit 10",
        (UP, THREE, ""),
        5,
        "USAGE\n",
    ),
    (
        "relax -o d.pddl -o d.pddl -f p.pddl",
        (UP, THREE, ""),
        5,
        "USAGE\n",
    ),
    // words in other forms, commands that aren't there yet, and files that aren't
    (
        "-f=p.pddl relax -od.pddl",
        (UP, THREE, ""),
        0,
        "MET\nbox (x)=[0,inf)\n",
    ),
    ("optimal -o=d.pddl -f=p.pddl", (UP, THREE, ""), 4, UNBUILT),
    ("expand -o=missing -f=missing", (UP, THREE, ""), 4, UNBUILT),
    (
        "relax -o=d.pddl -f=missing",
        (UP, THREE, ""),
        6,
        "FILE FAULT missing\n",
    ),
    (
        "relax -o absent -f=missing",
        (UP, THREE, ""),
        6,
        "FILE FAULT absent\n",
    ),
    (
        "validate -o d.pddl -f p.pddl -p missing",
        (UP, THREE, ""),
        6,
        "FILE FAULT missing\n",
    ),
];

// The number of the call of the files that fails and of the write that fails, or 0; the bytes that the output has room for; and
// the status and the bytes written by `relax` of a pair of two files, each of which takes three calls.
static FAULTS: [(u64, u64, u32, u8, &str); 11] = [
    (1, 0, 100, 6, "FILE FAULT d.pddl\n"),
    (2, 0, 100, 6, "FILE FAULT d.pddl\n"),
    (3, 0, 100, 6, "FILE FAULT d.pddl\n"),
    (4, 0, 100, 6, "FILE FAULT p.pddl\n"),
    (5, 0, 100, 6, "FILE FAULT p.pddl\n"),
    (6, 0, 100, 6, "FILE FAULT p.pddl\n"),
    (0, 1, 100, 7, ""),
    (0, 1, 7, 7, ""),
    (0, 2, 7, 7, "MET\nbox"),
    (0, 2, 100, 0, "MET\nbox (x)=[0,inf)\n"),
    (0, 0, 7, 7, "MET\nbox"),
];

fn text_of(alloc: Global, text: &str) -> Result<Text, AllocError> {
    Ok(Text::from_vec(Vec::from_slice(alloc, text.as_bytes())?))
}

fn words_of(alloc: Global, line: &str) -> Result<Vec<String>, AllocError> {
    let mut words = Vec::new(alloc);
    if line.is_empty() {
        return Ok(words);
    }
    for word in line.split(' ') {
        let word = if word == "''" { "" } else { word };
        words.push(word.to_string(alloc)?)?;
    }
    Ok(words)
}

/// The files `d.pddl`, `p.pddl` and `plan.txt` with these texts.
pub(crate) fn folder_of(
    alloc: Global,
    texts: (&str, &str, &str),
) -> Result<List<(Text, Text)>, AllocError> {
    let mut all = Vec::new(alloc);
    all.push((text_of(alloc, "d.pddl")?, text_of(alloc, texts.0)?))?;
    all.push((text_of(alloc, "p.pddl")?, text_of(alloc, texts.1)?))?;
    all.push((text_of(alloc, "plan.txt")?, text_of(alloc, texts.2)?))?;
    Ok(List::from_vec(all))
}

/// What a call gave: its status, whether it handed back the record of a search, and the bytes written.
#[derive(Drop)]
pub(crate) struct Call {
    pub(crate) status: u8,
    pub(crate) has_record: bool,
    pub(crate) bytes: Vec<u8>,
}

// The status, and whether there is a record.
fn end_of(ended: Ended) -> (u8, bool) {
    (ended.status, ended.found.is_some())
}

/// What a call gives, where this call of the files and this write fail.
pub(crate) fn called(
    alloc: Global,
    line: &str,
    folder: List<(Text, Text)>,
    failing_call: u64,
    failing_write: u64,
    room: u32,
) -> Result<Call, Fail> {
    let words = words_of(alloc, line)?;
    let mut files = MemoryFiles::new(folder, List::from_vec(vec![in alloc; failing_call]?));
    let fails = List::from_vec(vec![in alloc; failing_write]?);
    let mut sink = MemorySink::new(alloc, room, fails).map_err(|_| AllocError)?;
    let (status, has_record) = end_of(run_alone(alloc, words.as_slice(), &mut files, &mut sink));
    let bytes = Vec::from_slice(alloc, sink.bytes())?;
    Ok(Call {
        status,
        has_record,
        bytes,
    })
}

/// The status and the bytes of a call without a search, where this call of the files and this write fail.
pub(crate) fn outcome(
    alloc: Global,
    line: &str,
    folder: List<(Text, Text)>,
    failing_call: u64,
    failing_write: u64,
    room: u32,
) -> Result<(u8, Vec<u8>), Fail> {
    let call = called(alloc, line, folder, failing_call, failing_write, room)?;
    Ok((call.status, call.bytes))
}

#[test]
fn calls_are_answered(rt: HostRuntime) -> Result<(), Fail> {
    let alloc = rt.alloc();
    for &(line, texts, status, text) in CALLS.iter() {
        let (got, bytes) = outcome(alloc, line, folder_of(alloc, texts)?, 0, 0, 100)?;
        assert_eq!(rt; got, status, "{line}: {text}");
        assert_eq!(rt; bytes.as_slice(), text.as_bytes(), "{line}: {text}");
    }
    Ok(())
}

#[test]
fn faults_are_told(rt: HostRuntime) -> Result<(), Fail> {
    let alloc = rt.alloc();
    for &(call, write, room, status, text) in FAULTS.iter() {
        let folder = folder_of(alloc, (UP, THREE, ""))?;
        let (got, bytes) = outcome(alloc, RELAX, folder, call, write, room)?;
        assert_eq!(rt; got, status, "call {call}, write {write}, room {room}");
        assert_eq!(rt;
            bytes.as_slice(),
            text.as_bytes(),
            "call {call}, write {write}"
        );
    }
    Ok(())
}

/// The files of which the domain has this many spaces, and the problem isn't there.
fn large_domain(alloc: Global, count: usize) -> Result<List<(Text, Text)>, AllocError> {
    let mut folder = Vec::new(alloc);
    let spaces = Text::from_vec(vec![in alloc; b' '; count]?);
    folder.push((text_of(alloc, "d.pddl")?, spaces))?;
    Ok(List::from_vec(folder))
}

#[test]
fn a_large_file_is_refused_before_the_next(rt: HostRuntime) -> Result<(), Fail> {
    let alloc = rt.alloc();
    let (status, bytes) = outcome(alloc, RELAX, large_domain(alloc, 1_048_577)?, 0, 0, 100)?;
    assert_eq!(rt; status, 4);
    assert_eq!(rt; bytes.as_slice(), b"REFUSED domain TOOLARGE\n".as_slice());
    let (status, bytes) = outcome(alloc, RELAX, large_domain(alloc, 1_048_576)?, 0, 0, 100)?;
    assert_eq!(rt; status, 6);
    assert_eq!(rt; bytes.as_slice(), b"FILE FAULT p.pddl\n".as_slice());
    Ok(())
}
