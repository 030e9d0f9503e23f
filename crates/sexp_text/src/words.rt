//! Words whose letters are folded to lower case.

ghost use Rattle.std.specs.Prelude.{◌≡◌, map, bytes_eq};
ghost use Rattle.num_ends.specs.Names.{folded};

use num_ends::folded;

/// Whether bytes with their letters folded are a word.
pub fn is_word(bytes: &[u8], word: &[u8]) -> bool
    ensures { result ≡ bytes_eq (map folded bytes.now) word.now }
{
    let mut at = 0;
    while at < bytes.len() && at < word.len() {
        if folded(bytes[at]) != word[at] {
            return false;
        }
        at += 1;
    }
    bytes.len() == word.len()
}
