//! As many lines as are read, and one more.

use crate::tasks::NOTHING;
use certify_command::answer;
use num_ends::{List, NoMemory};
use std::alloc::Global;
use std::test::Fail;

// How many lines of boxes and of states a certificate has, and the line of the answer.
static LENGTHS: [(u32, u32, &str); 5] = [
    (40_000, 0, "CERTIFIED\n"),
    (40_001, 0, "REFUSED certificate 40002 TOOMANY\n"),
    (0, 500_000, "CERTIFIED\n"),
    (0, 500_001, "REFUSED certificate 500002 TOOMANY\n"),
    (40_001, 500_001, "REFUSED certificate 40002 TOOMANY\n"),
];

// Appends a line so often.
fn append(out: &mut List<u8>, line: &[u8], times: u32) -> Result<(), NoMemory> {
    for _ in 0..times {
        out.extend_from_slice(line)?;
    }
    Ok(())
}

// A certificate of so many boxes and states of a task without facts and fluents.
fn certificate(alloc: Global, boxes: u32, states: u32) -> Result<List<u8>, NoMemory> {
    let mut text = List::new(alloc);
    text.extend_from_slice(b"UNSOLVABLE 2\n")?;
    append(&mut text, b"box\n", boxes)?;
    append(&mut text, b"state\n", states)?;
    text.extend_from_slice(b"end\n")?;
    Ok(text)
}

// Whether `certify` answers a certificate of so many boxes and states with this line.
fn is_answer(alloc: Global, boxes: u32, states: u32, line: &str) -> Result<bool, NoMemory> {
    let (domain, problem) = NOTHING;
    let text = certificate(alloc, boxes, states)?;
    if domain.len() > 2048 || problem.len() > 2048 || text.len() > 4_000_000 {
        return Ok(false);
    }
    let found = answer(
        alloc,
        domain.as_bytes(),
        problem.as_bytes(),
        text.as_slice(),
    )?;
    Ok(found.text.as_slice() == line.as_bytes())
}

#[test]
fn as_many_lines_as_are_read(rt: HostRuntime) -> Result<(), Fail> {
    for &(boxes, states, line) in LENGTHS.iter() {
        assert!(rt;
            is_answer(rt.alloc(), boxes, states, line)?,
            "{boxes} boxes, {states} states"
        );
    }
    Ok(())
}
