//! The line of a step.

ghost use Rattle.std.specs.Prelude.{◌≡◌, ◌∷◌, ◌++◌, ℕ, List, OnOk, OnErr, codes, flat_map};
ghost use Rattle.std.specs.List.{join_with_byte};
ghost use Rattle.plan_text.specs.Plans.{step_line};

use crate::step::Step;
use num_ends::{List, NoMemory, Text};
use std::alloc::Global;

/// Appends names, a space before each.
fn append_names(out: &mut List<u8>, names: &[Text]) -> Result<(), NoMemory>
    ensures ok { OnOk result (out.new ≡ out.old ++ flat_map (λ name. 32 ∷ name) names.now) }
    ensures err { OnErr result ((part : List ℕ) × (out.new ≡ out.old ++ part)) }
{
    for name in names {
        out.push(b' ')?;
        out.extend_from_slice(name.as_slice())?;
    }
    Ok(())
}

/// Appends names with single spaces between them.
fn append_words(out: &mut List<u8>, name: &Text, others: &[Text]) -> Result<(), NoMemory>
    ensures ok { OnOk result (out.new ≡ out.old ++ join_with_byte 32 (name.now ∷ others.now)) }
    ensures err { OnErr result ((part : List ℕ) × (out.new ≡ out.old ++ part)) }
{
    out.extend_from_slice(name.as_slice())?;
    append_names(out, others)
}

fn append_line(out: &mut List<u8>, step: &Step) -> Result<(), NoMemory>
    ensures ok { OnOk result (out.new ≡ out.old ++ step_line step.now) }
    ensures err { OnErr result ((part : List ℕ) × (out.new ≡ out.old ++ part)) }
{
    out.extend_from_slice(b"(")?;
    append_words(out, &step.name, step.args.as_slice())?;
    out.extend_from_slice(b")\n")
}

/// Writes a step behind what `out` has, on a line of its own such as `(move a b)`. Without memory `out` stays as it was.
pub fn write_step(_alloc: Global, out: &mut List<u8>, step: &Step) -> Result<(), NoMemory>
    ensures ok { OnOk result (out.new ≡ out.old ++ step_line step.now) }
    ensures err { OnErr result (out.new ≡ out.old) }
{
    let before = out.len();
    match append_line(out, step) {
        Ok(()) => Ok(()),
        Err(fault) => {
            out.truncate(before);
            Err(fault)
        }
    }
}
