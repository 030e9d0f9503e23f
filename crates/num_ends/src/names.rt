//! The names of the language, and letters folded to lower case.

ghost use Rattle.std.specs.Prelude.{◌≡◌, map, IfOk};
ghost use Rattle.std.specs.List.{list_all};
ghost use Rattle.num_ends.specs.Names.{begins_name, continues_name, folded, is_name};

use crate::faults::NoMemory;
use crate::lists::Text;
use std::alloc::Global;

/// An upper-case letter of ASCII as the lower-case one, and any other byte as it is.
pub fn folded(byte: u8) -> u8
    ensures { result ≡ folded byte }
{
    if b'A' <= byte && byte <= b'Z' {
        byte + (b'a' - b'A')
    } else {
        byte
    }
}

/// Bytes with their letters folded.
pub fn folded_text(alloc: Global, bytes: &[u8]) -> Result<Text, NoMemory>
    ensures { IfOk result (λ text. text ≡ map folded bytes.now) }
{
    let text = bytes.iter().map(|byte| folded(*byte)).collect(alloc)?;
    Ok(Text::from_vec(text))
}

fn begins(byte: u8) -> bool
    ensures { result ≡ begins_name byte }
{
    (b'a' <= byte && byte <= b'z') || byte == b'_'
}

fn continues(byte: u8) -> bool
    ensures { result ≡ continues_name byte }
{
    begins(byte) || (b'0' <= byte && byte <= b'9') || byte == b'-' || byte == b'.'
}

fn all_continue(bytes: &[u8]) -> bool
    ensures { result ≡ list_all continues_name bytes.now }
{
    bytes.iter().all(|byte| continues(*byte))
}

fn all_continue_folded(bytes: &[u8]) -> bool
    ensures { result ≡ list_all continues_name (map folded bytes.now) }
{
    bytes
        .iter()
        .map(|byte| folded(*byte))
        .all(|byte| continues(byte))
}

/// Whether bytes are a name in lower case: a letter or `_`, and then letters, digits, `-`, `_` and `.`.
pub fn is_name(bytes: &[u8]) -> bool
    ensures { result ≡ is_name bytes.now }
{
    match bytes {
        [] => false,
        [first, rest @ ..] => begins(*first) && all_continue(rest),
    }
}

/// Whether bytes are a name once their letters are folded.
pub fn is_name_folded(bytes: &[u8]) -> bool
    ensures { result ≡ is_name (map folded bytes.now) }
{
    match bytes {
        [] => false,
        [first, rest @ ..] => begins(folded(*first)) && all_continue_folded(rest),
    }
}
