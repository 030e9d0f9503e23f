//! Atoms as numbers.

ghost use Rattle.std.specs.Prelude.{◌≡◌, ◌≤◌, ◌<◌, All, IsTrue, nat_lt};
ghost use Rattle.std.specs.List.{list_all};
ghost use Rattle.static_facts.specs.Codes.{code_of, coded, is_codable};
ghost use Rattle.static_facts.specs.internal.Keys.{digit_at};

// The most objects of an atom that has a code.
const DIGITS: usize = 8;

// The base of the digits, of which each but 0 stands for an object.
const BASE: u128 = 4_096;

fn digit(objects: &[u32], place: usize) -> u128
    requires { IsTrue (list_all (λ o. nat_lt o 4095) objects.now) }
    ensures value { result ≡ digit_at objects.now place }
    ensures small { result < 4096 }
{
    match objects.get(place) {
        Some(object) => u128::from(*object) + 1,
        None => 0,
    }
}

fn is_codable(objects: &[u32]) -> bool
    ensures { result ≡ is_codable objects.now }
{
    objects.len() <= DIGITS && are_small(objects)
}

fn are_small(objects: &[u32]) -> bool
    ensures { result ≡ list_all (λ o. nat_lt o 4095) objects.now }
{
    objects.iter().all(|object| *object < 4_095)
}

fn digits_of(symbol: u32, objects: &[u32]) -> u128
    requires { IsTrue (list_all (λ o. nat_lt o 4095) objects.now) }
    ensures { result ≡ code_of symbol objects.now }
{
    let mut code = u128::from(symbol);
    'digits: for place in 0..DIGITS {
        code = code * BASE + digit(objects, place);
    }
    code
}

/// The code of a predicate's or function's number and the numbers of objects: codes rise as these do, compared from the
/// left, and no two have one code. None where there are more than 8 objects or a number is over 4,094.
pub fn code_of(symbol: u32, objects: &[u32]) -> Option<u128>
    ensures { result ≡ coded symbol objects.now }
{
    if is_codable(objects) {
        Some(digits_of(symbol, objects))
    } else {
        None
    }
}
