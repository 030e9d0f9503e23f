//! Decimals written as text.

ghost use Rattle.std.specs.Prelude.{◌≡◌, ◌-◌, ◌^◌, ◌<◌, ◌≤◌, ◌++◌, ℕ, List, OnOk, OnErr, codes, decimal, length, replicate};
ghost use Rattle.num_ends.specs.Texts.{decimal_text, trimmed_text, sign_text, places_text, padded_digits};

use crate::dec::Dec;
use crate::faults::NoMemory;
use crate::lists::List;
use crate::order::ten_to;
use itoa::Buffer;
use std::alloc::Global;

fn append_digits(out: &mut List<u8>, n: u128) -> Result<(), NoMemory>
    ensures ok { OnOk result (out.new ≡ out.old ++ decimal n) }
    ensures err { OnErr result ((part : List ℕ) × (out.new ≡ out.old ++ part)) }
{
    let mut buffer = Buffer::new();
    out.extend_from_slice(buffer.format(n).as_bytes())
}

fn append_zeros(out: &mut List<u8>, count: usize) -> Result<(), NoMemory>
    ensures ok { OnOk result (out.new ≡ out.old ++ replicate count 48) }
    ensures err { OnErr result ((part : List ℕ) × (out.new ≡ out.old ++ part)) }
{
    for _done in 0..count {
        out.push(b'0')?;
    }
    Ok(())
}

/// Appends a number with `p` digits.
fn append_padded(out: &mut List<u8>, n: u64, p: u8) -> Result<(), NoMemory>
    requires { p ≤ 18 }
    ensures ok { OnOk result (out.new ≡ out.old ++ padded_digits p n) }
    ensures err { OnErr result ((part : List ℕ) × (out.new ≡ out.old ++ part)) }
{
    let mut buffer = Buffer::new();
    let digits = buffer.format(n).as_bytes();
    append_zeros(out, usize::from(p).saturating_sub(digits.len()))?;
    out.extend_from_slice(digits)
}

fn append_sign(out: &mut List<u8>, d: Dec) -> Result<(), NoMemory>
    ensures ok { OnOk result (out.new ≡ out.old ++ sign_text d.n) }
    ensures err { OnErr result ((part : List ℕ) × (out.new ≡ out.old ++ part)) }
{
    if d.is_negative() {
        out.push(b'-')?;
    }
    Ok(())
}

/// Appends the point and the digits behind it, if there are any.
fn append_places(out: &mut List<u8>, magnitude: u128, p: u8) -> Result<(), NoMemory>
    requires { p ≤ 18 }
    ensures ok { OnOk result (out.new ≡ out.old ++ places_text p magnitude) }
    ensures err { OnErr result ((part : List ℕ) × (out.new ≡ out.old ++ part)) }
{
    if p == 0 {
        return Ok(());
    }
    out.push(b'.')?;
    let fraction = magnitude % u128::from(ten_to(p));
    append_padded(out, fraction as u64, p)
}

/// Appends the text of a trimmed decimal.
fn append_trimmed(out: &mut List<u8>, d: Dec) -> Result<(), NoMemory>
    ensures ok { OnOk result (out.new ≡ out.old ++ trimmed_text d) }
    ensures err { OnErr result ((part : List ℕ) × (out.new ≡ out.old ++ part)) }
{
    append_sign(out, d)?;
    let magnitude = d.magnitude();
    append_digits(out, magnitude / u128::from(ten_to(d.places())))?;
    append_places(out, magnitude, d.places())
}

/// Appends a decimal's trimmed value: `-` if it is negative, the whole part without leading zeros, and `.` with
/// the places if there are any. Without memory `out` stays as it was.
#[tactic(auto, unfolding(crate::specs::Texts::decimal_text))]
pub fn write_dec(_alloc: Global, out: &mut List<u8>, d: Dec) -> Result<(), NoMemory>
    ensures ok { OnOk result (out.new ≡ out.old ++ decimal_text d) }
    ensures err { OnErr result (out.new ≡ out.old) }
{
    let before = out.len();
    match append_trimmed(out, d.trim()) {
        Ok(()) => Ok(()),
        Err(fault) => {
            out.truncate(before);
            Err(fault)
        }
    }
}
