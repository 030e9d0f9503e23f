//! Certificates read from texts.

ghost use Rattle.std.specs.Prelude.{◌≡◌, ◌≤◌, ◌++◌, ◌∷◌, ℕ, All, IfErr, IfOk, MatchOption, OnOk, length, codes};
ghost use Rattle.ground_task.specs.States.{StateValue};
ghost use Rattle.ground_task.specs.Tasks.{IsStateOf};
ghost use Rattle.box_model.specs.Boxes.{IsBoxOf};
ghost use Rattle.box_model.specs.declared.state_box.StateBox.{StateBox};
ghost use Rattle.cert_text.specs.declared.cert.Version.{Version};
ghost use Rattle.cert_reader.specs.Certificates.{first_line, IsAnswer};
ghost use Rattle.cert_reader.specs.Parts.{IsWithout};
ghost use Rattle.cert_reader.specs.Spelling.{SpellsBox, SpellsState};
ghost use Rattle.cert_reader.specs.internal.Additions.{Adds, IsAgainst};

use crate::cuts::{cut, is_word};
use crate::faults::CertFault;
use crate::lines::{box_in, state_in};
use cert_text::{Cert, Version};
use ground_task::Task;
use num_ends::List;
use std::alloc::Global;

const MAX_BOXES: usize = 40_000;

const MAX_STATES: usize = 500_000;

/// The version that the first line names.
fn version_of(line: &[u8]) -> Option<Version>
    ensures { MatchOption result ((version : Version) → line.now ≡ first_line version → ⊥) (λ version. line.now ≡ first_line version) }
{
    if is_word(line, b"UNSOLVABLE 1") {
        return Some(Version::Full);
    }
    if is_word(line, b"UNSOLVABLE 2") {
        return Some(Version::Short);
    }
    None
}

/// Adds the box of a line.
fn add_box(
    alloc: Global,
    task: &Task,
    version: Version,
    line: &[u8],
    number: u32,
    cert: &mut Cert,
) -> Result<(), CertFault>
    requires one_line { IsWithout 10 line.now }
    requires no_state { (s : StateValue) → SpellsState task.now line.now s → ⊥ }
    requires no_end { line.now ≡ codes "end" → ⊥ }
    requires few { length cert.old.boxes ≤ 40000 }
    ensures ok { OnOk result (Adds task.now version line.now cert.old cert.new) }
    ensures err { IfErr result (IsAgainst task.now version line.now number cert.old) }
{
    if cert.states.len() > 0 {
        return Err(CertFault::BadLine(number));
    }
    let Some(own) = box_in(alloc, task, version, line)? else {
        return Err(CertFault::BadLine(number));
    };
    if cert.boxes.len() >= MAX_BOXES {
        return Err(CertFault::TooMany(number));
    }
    Ok(cert.boxes.push(own)?)
}

/// Adds the state of a line.
fn add_state(
    alloc: Global,
    task: &Task,
    version: Version,
    line: &[u8],
    number: u32,
    cert: &mut Cert,
) -> Result<(), CertFault>
    requires one_line { IsWithout 10 line.now }
    requires no_box { (b : StateBox) → SpellsBox task.now version line.now b → ⊥ }
    requires no_end { line.now ≡ codes "end" → ⊥ }
    requires few { length cert.old.states ≤ 500000 }
    ensures ok { OnOk result (Adds task.now version line.now cert.old cert.new) }
    ensures err { IfErr result (IsAgainst task.now version line.now number cert.old) }
{
    let Some(state) = state_in(alloc, task, line)? else {
        return Err(CertFault::BadLine(number));
    };
    if cert.states.len() >= MAX_STATES {
        return Err(CertFault::TooMany(number));
    }
    Ok(cert.states.push(state)?)
}

/// Adds the box or the state of a line.
fn add_line(
    alloc: Global,
    task: &Task,
    version: Version,
    line: &[u8],
    number: u32,
    cert: &mut Cert,
) -> Result<(), CertFault>
    requires one_line { IsWithout 10 line.now }
    requires no_end { line.now ≡ codes "end" → ⊥ }
    requires few_boxes { length cert.old.boxes ≤ 40000 }
    requires few_states { length cert.old.states ≤ 500000 }
    ensures ok { OnOk result (Adds task.now version line.now cert.old cert.new) }
    ensures err { IfErr result (IsAgainst task.now version line.now number cert.old) }
{
    if line.starts_with(b"box") {
        add_box(alloc, task, version, line, number, cert)
    } else {
        add_state(alloc, task, version, line, number, cert)
    }
}

/// Reads the lines behind the first.
fn read_lines(alloc: Global, task: &Task, version: Version, text: &[u8]) -> Result<Cert, CertFault>
    ensures { IsAnswer task.now (first_line version ++ 10 ∷ text.now) result }
{
    let mut cert = Cert {
        boxes: List::new(alloc),
        states: List::new(alloc),
    };
    let mut number: u32 = 2;
    let mut rest = text;
    'lines: loop {
        let Some((line, behind)) = cut(b'\n', rest) else {
            return Err(CertFault::EndsEarly(number));
        };
        if is_word(line, b"end") {
            return if behind.is_empty() {
                Ok(cert)
            } else {
                Err(CertFault::BadLine(number + 1))
            };
        }
        if let Err(fault) = add_line(alloc, task, version, line, number, &mut cert) {
            return Err(fault);
        }
        number += 1;
        rest = behind;
    }
}

/// Reads a text as a certificate of a task.
///
/// The first line is `UNSOLVABLE 1` or `UNSOLVABLE 2`, then come lines of boxes, lines of states, and `end`, each line with
/// its line feed. A line has what is said of each fact and then of each fluent, in the order of the task. In the second
/// version the line of a box may leave out facts that may have either truth value and fluents that may have any value.
/// Numbers may be written in any form; an end or a value has at most the places of its fluent. The fault is the first of
/// the text. At most 40,000 boxes and 500,000 states are read.
pub fn read_cert(alloc: Global, task: &Task, bytes: &[u8]) -> Result<Cert, CertFault>
    ensures answer { IsAnswer task.now bytes.now result }
    ensures boxes { IfOk result (λ cert. All (IsBoxOf task.now) cert.boxes) }
    ensures states { IfOk result (λ cert. All (IsStateOf task.now) cert.states) }
    ensures few_boxes { IfOk result (λ cert. length cert.boxes ≤ 40000) }
    ensures few_states { IfOk result (λ cert. length cert.states ≤ 500000) }
{
    // A task has places for each fluent.
    let _raw = task.raw();
    let Some((first, behind)) = cut(b'\n', bytes) else {
        return Err(CertFault::EndsEarly(1));
    };
    let Some(version) = version_of(first) else {
        return Err(CertFault::BadLine(1));
    };
    read_lines(alloc, task, version, behind)
}
