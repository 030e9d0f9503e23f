//! Codes of atoms read back.

ghost use Rattle.std.specs.Prelude.{◌≡◌, ◌<◌, ◌*◌, ◌^◌, IfOk};
ghost use Rattle.grounder.specs.internal.Decoded.{before_digits, digit_objects, objects_in, symbol_of};

use num_ends::NoMemory;
use std::alloc::Global;

// The base of the digits of a code, of which each but 0 stands for an object.
const BASE: u128 = 4_096;

/// The number of an atom's predicate or function, and those of its objects.
#[derive(Drop)]
pub(crate) struct AtomNumbers {
    pub(crate) symbol: u32,
    pub(crate) objects: Vec<u32>,
}

// Reads the last digits of a code.
#[tactic(auto, using(crate::proofs::Digits::fits_next, crate::proofs::Digits::symbol_next, crate::proofs::Digits::no_object, crate::proofs::Digits::one_object))]
fn read_back(alloc: Global, digits: u8, code: u128) -> Result<AtomNumbers, NoMemory>
    requires fits { code < 2 ^ 32 * 4096 ^ digits }
    ensures symbol { IfOk result (λ a. a.symbol ≡ before_digits digits code) }
    ensures objects { IfOk result (λ a. a.objects.items ≡ digit_objects digits code) }
{
    if digits == 0 {
        return Ok(AtomNumbers {
            symbol: code as u32,
            objects: Vec::new(alloc),
        });
    }
    let mut numbers = read_back(alloc, digits - 1, code / BASE)?;
    let digit = (code % BASE) as u32;
    if digit > 0 {
        numbers.objects.push(digit - 1)?;
    }
    Ok(numbers)
}

/// The numbers that a code consists of.
#[tactic(auto, using(crate::proofs::Digits::fits_whole), unfolding(crate::specs::internal::Decoded::symbol_of, crate::specs::internal::Decoded::objects_in))]
pub(crate) fn decoded(alloc: Global, code: u128) -> Result<AtomNumbers, NoMemory>
    ensures symbol { IfOk result (λ a. a.symbol ≡ symbol_of code) }
    ensures objects { IfOk result (λ a. a.objects.items ≡ objects_in code) }
{
    read_back(alloc, 8, code)
}
