//! Lines and columns.

ghost use Rattle.std.specs.Prelude.{◌≡◌, ◌≤◌, ◌^◌, length, take};
ghost use Rattle.pair_text.specs.Places.{place_of};

use crate::refusals::Place;

/// The first bytes of a text, at most so many.
fn front(text: &[u8], len: usize) -> &[u8]
    ensures { result.now ≡ take len text.now }
{
    if len < text.len() { &text[..len] } else { text }
}

/// The place of the byte with this position, of a text of at most 2^30 bytes. A position past the end of the text counts as
/// the end.
pub fn place_of(text: &[u8], at: u32) -> Place
    requires { length text.now ≤ 2 ^ 30 }
    ensures { result ≡ place_of text.now at }
{
    let front = front(text, at as usize);
    let mut line: u32 = 1;
    let mut column: u32 = 1;
    for byte in front {
        if *byte == b'\n' {
            line += 1;
            column = 1;
        } else {
            column += 1;
        }
    }
    Place { line, column }
}
