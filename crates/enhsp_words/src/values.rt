//! The values of the options.

ghost use Rattle.std.specs.Prelude.{◌≡◌, option_map};
ghost use Rattle.std.specs.Str.{all_ascii_digits};
ghost use Rattle.enhsp_words.specs.Jobs.{Gives, name_of, number_of, numeral_of};

use crate::job::WordsFault;
use num_ends::Text;
use std::alloc::Global;

/// The least and the greatest number of an option, and the one that holds where none is given.
#[derive(Clone, Copy, Debug)]
pub(crate) struct Bounds {
    pub(crate) least: u32,
    pub(crate) most: u32,
    pub(crate) default: u32,
}

/// The name of a file, or the empty text where none is given.
pub(crate) fn file_name(alloc: Global, value: Option<&str>) -> Result<Text, WordsFault>
    ensures { Gives result (name_of (option_map (λ s. s.now) value.entry)) }
{
    match value {
        None => Ok(Text::new(alloc)),
        Some("") => Err(WordsFault::Usage),
        Some(name) => {
            let bytes = Vec::from_slice(alloc, name.as_bytes()).map_err(|_| WordsFault::NoMemory)?;
            Ok(Text::from_vec(bytes))
        }
    }
}

/// The number of an option.
pub(crate) fn number(bounds: Bounds, value: Option<&str>) -> Result<u32, WordsFault>
    ensures { Gives result (number_of bounds (option_map (λ s. s.now) value.entry)) }
{
    match value {
        None => Ok(bounds.default),
        Some(text) => match numeral(text) {
            Some(n) if bounds.least <= n && n <= bounds.most => Ok(n),
            _ => Err(WordsFault::Usage),
        },
    }
}

/// The number that one to seven digits write.
#[tactic(auto, using(crate::proofs::Numerals::seven_digits))]
fn numeral(text: &str) -> Option<u32>
    ensures { result ≡ numeral_of text.now }
{
    if text.is_empty() || text.len() > 7 || !all_digits(text) {
        return None;
    }
    text.parse().ok()
}

fn all_digits(text: &str) -> bool
    ensures { result ≡ all_ascii_digits text.now }
{
    for &b in text.as_bytes() {
        if !b.is_ascii_digit() {
            return false;
        }
    }
    true
}
