//! The lines of boxes.

ghost use Rattle.std.specs.Prelude.{◌≡◌, ◌<◌, ◌++◌, [], codes, length, slice_index_or, OnOk, OnErr};
ghost use Rattle.num_ends.specs.Ends.{whole_line};
ghost use Rattle.num_ends.specs.Texts.{lower_text, upper_text, interval_text};
ghost use Rattle.box_model.specs.Boxes.{IsBoxOf};
ghost use Rattle.cert_text.specs.Lines.{may_text, part_text, is_infinite, is_unbounded, fact_part, fluent_part, version_fact_parts, version_fluent_parts, version_line, box_line, short_box_line, GoesOn};

use crate::cert::Version;
use box_model::{May, StateBox};
use ground_task::Task;
use num_ends::{End, Interval, List, NoMemory, Text, write_dec};
use std::alloc::Global;

fn may_word(may: May) -> &'static [u8]
    ensures { result.now ≡ may_text may }
{
    match may {
        May::True => b"true",
        May::False => b"false",
        May::Any => b"any",
    }
}

fn write_lower(alloc: Global, out: &mut List<u8>, end: End) -> Result<(), NoMemory>
    ensures ok { OnOk result (out.new ≡ out.old ++ lower_text end) }
    ensures err { OnErr result (GoesOn out.old out.new) }
{
    match end {
        End::NegInf => out.extend_from_slice(b"(-inf"),
        End::Excl(d) => {
            out.extend_from_slice(b"(")?;
            write_dec(alloc, out, d)
        }
        End::Incl(d) => {
            out.extend_from_slice(b"[")?;
            write_dec(alloc, out, d)
        }
        End::PosInf => out.extend_from_slice(b"(inf"),
    }
}

fn write_upper(alloc: Global, out: &mut List<u8>, end: End) -> Result<(), NoMemory>
    ensures ok { OnOk result (out.new ≡ out.old ++ upper_text end) }
    ensures err { OnErr result (GoesOn out.old out.new) }
{
    match end {
        End::NegInf => out.extend_from_slice(b"-inf)"),
        End::Excl(d) => {
            write_dec(alloc, out, d)?;
            out.extend_from_slice(b")")
        }
        End::Incl(d) => {
            write_dec(alloc, out, d)?;
            out.extend_from_slice(b"]")
        }
        End::PosInf => out.extend_from_slice(b"inf)"),
    }
}

fn write_interval(alloc: Global, out: &mut List<u8>, interval: Interval) -> Result<(), NoMemory>
    ensures ok { OnOk result (out.new ≡ out.old ++ interval_text interval) }
    ensures err { OnErr result (GoesOn out.old out.new) }
{
    write_lower(alloc, out, interval.lower())?;
    out.extend_from_slice(b",")?;
    write_upper(alloc, out, interval.upper())
}

/// Appends a blank, a name and `=`.
pub(crate) fn write_name(out: &mut List<u8>, name: &Text) -> Result<(), NoMemory>
    ensures ok { OnOk result (out.new ≡ out.old ++ (codes " " ++ name.now ++ codes "=")) }
    ensures err { OnErr result (GoesOn out.old out.new) }
{
    out.extend_from_slice(b" ")?;
    out.extend_from_slice(name.as_slice())?;
    out.extend_from_slice(b"=")
}

/// Appends what a line says of a fact.
fn write_fact(out: &mut List<u8>, name: &Text, may: May, version: Version) -> Result<(), NoMemory>
    ensures ok { OnOk result (out.new ≡ out.old ++ fact_part version name.now may) }
    ensures err { OnErr result (GoesOn out.old out.new) }
{
    match (version, may) {
        (Version::Short, May::Any) => Ok(()),
        _ => {
            write_name(out, name)?;
            out.extend_from_slice(may_word(may))
        }
    }
}

fn is_infinite(end: End) -> bool
    ensures { result ≡ is_infinite end }
{
    match end {
        End::NegInf | End::PosInf => true,
        End::Excl(_) | End::Incl(_) => false,
    }
}

fn is_unbounded(interval: Interval) -> bool
    ensures { result ≡ is_unbounded interval }
{
    is_infinite(interval.lower()) && is_infinite(interval.upper())
}

/// Appends what a line says of a fluent.
fn write_fluent(
    alloc: Global,
    out: &mut List<u8>,
    name: &Text,
    interval: Interval,
    version: Version,
) -> Result<(), NoMemory>
    ensures ok { OnOk result (out.new ≡ out.old ++ fluent_part version name.now interval) }
    ensures err { OnErr result (GoesOn out.old out.new) }
{
    match version {
        Version::Short if is_unbounded(interval) => Ok(()),
        _ => {
            write_name(out, name)?;
            write_interval(alloc, out, interval)
        }
    }
}

/// Appends what a line says of the fact of this number.
fn write_fact_at(
    out: &mut List<u8>,
    names: &[Text],
    facts: &[May],
    number: usize,
    version: Version,
) -> Result<(), NoMemory>
    requires named { number < length names.now }
    requires known { number < length facts.now }
    ensures ok { OnOk result (out.new ≡ out.old ++ fact_part version (slice_index_or names.now number []) (slice_index_or facts.now number May.Any)) }
    ensures err { OnErr result (GoesOn out.old out.new) }
{
    write_fact(out, &names[number], facts[number], version)
}

fn write_facts(
    out: &mut List<u8>,
    names: &[Text],
    facts: &[May],
    version: Version,
) -> Result<(), NoMemory>
    requires { length facts.now ≡ length names.now }
    ensures ok { OnOk result (out.new ≡ out.old ++ version_fact_parts version names.now facts.now) }
    ensures err { OnErr result (GoesOn out.old out.new) }
{
    'each: for number in 0..facts.len() {
        write_fact_at(out, names, facts, number, version)?;
    }
    Ok(())
}

/// Appends what a line says of the fluent of this number.
fn write_fluent_at(
    alloc: Global,
    out: &mut List<u8>,
    names: &[Text],
    fluents: &[Interval],
    number: usize,
    version: Version,
) -> Result<(), NoMemory>
    requires named { number < length names.now }
    requires known { number < length fluents.now }
    ensures ok { OnOk result (out.new ≡ out.old ++ fluent_part version (slice_index_or names.now number []) (slice_index_or fluents.now number whole_line)) }
    ensures err { OnErr result (GoesOn out.old out.new) }
{
    write_fluent(alloc, out, &names[number], fluents[number], version)
}

fn write_fluents(
    alloc: Global,
    out: &mut List<u8>,
    names: &[Text],
    fluents: &[Interval],
    version: Version,
) -> Result<(), NoMemory>
    requires { length fluents.now ≡ length names.now }
    ensures ok { OnOk result (out.new ≡ out.old ++ version_fluent_parts version names.now fluents.now) }
    ensures err { OnErr result (GoesOn out.old out.new) }
{
    'each: for number in 0..fluents.len() {
        write_fluent_at(alloc, out, names, fluents, number, version)?;
    }
    Ok(())
}

/// Appends the line of a box. Without memory a front of it may be there.
fn append_box(
    alloc: Global,
    task: &Task,
    part: &StateBox,
    version: Version,
    out: &mut List<u8>,
) -> Result<(), NoMemory>
    requires { IsBoxOf task.now part.now }
    ensures ok { OnOk result (out.new ≡ out.old ++ version_line version task.now.raw part.now) }
    ensures err { OnErr result (GoesOn out.old out.new) }
{
    let (facts, fluents) = (part.facts.as_slice(), part.fluents.as_slice());
    out.extend_from_slice(b"box")?;
    write_facts(out, task.raw().facts.as_slice(), facts, version)?;
    write_fluents(alloc, out, task.raw().fluents.as_slice(), fluents, version)?;
    out.extend_from_slice(b"\n")
}

fn write_version(
    alloc: Global,
    task: &Task,
    part: &StateBox,
    version: Version,
    out: &mut List<u8>,
) -> Result<(), NoMemory>
    requires { IsBoxOf task.now part.now }
    ensures ok { OnOk result (out.new ≡ out.old ++ version_line version task.now.raw part.now) }
    ensures err { OnErr result (out.new ≡ out.old) }
{
    let before = out.len();
    match append_box(alloc, task, part, version, out) {
        Ok(()) => Ok(()),
        Err(fault) => {
            out.truncate(before);
            Err(fault)
        }
    }
}

/// Appends the line of a box of the task, with its line feed. Without memory `out` stays as it was.
pub fn write_box(
    alloc: Global,
    task: &Task,
    part: &StateBox,
    out: &mut List<u8>,
) -> Result<(), NoMemory>
    requires { IsBoxOf task.now part.now }
    ensures ok { OnOk result (out.new ≡ out.old ++ box_line task.now.raw part.now) }
    ensures err { OnErr result (out.new ≡ out.old) }
{
    write_version(alloc, task, part, Version::Full, out)
}

/// The same without the facts that may have either truth value and the fluents that may have any value.
pub fn write_box_short(
    alloc: Global,
    task: &Task,
    part: &StateBox,
    out: &mut List<u8>,
) -> Result<(), NoMemory>
    requires { IsBoxOf task.now part.now }
    ensures ok { OnOk result (out.new ≡ out.old ++ short_box_line task.now.raw part.now) }
    ensures err { OnErr result (out.new ≡ out.old) }
{
    write_version(alloc, task, part, Version::Short, out)
}
