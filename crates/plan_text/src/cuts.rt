//! Where a text is cut.

ghost use Rattle.std.specs.Prelude.{◌≡◌, ◌≤◌, length, option_map};
ghost use Rattle.std.specs.List.{prefix_len};
ghost use Rattle.plan_text.specs.Plans.{is_space};
ghost use Rattle.plan_text.specs.internal.Reading.{is_of, front, past, behind_first};

/// What bytes may be.
#[derive(Clone, Copy, Debug)]
pub(crate) enum Kind {
    /// A space, a tab or a carriage return.
    Space,
    /// A decimal digit.
    Digit,
    /// Anything but white space.
    Word,
    /// Any other byte than this one.
    Not(u8),
}

fn is_space(byte: u8) -> bool
    ensures { result ≡ is_space byte }
{
    byte == b' ' || byte == b'\t' || byte == b'\r'
}

impl Kind {
    fn has(self, byte: u8) -> bool
        ensures { result ≡ is_of self byte }
    {
        match self {
            Kind::Space => is_space(byte),
            Kind::Digit => b'0' <= byte && byte <= b'9',
            Kind::Word => !is_space(byte),
            Kind::Not(other) => byte != other,
        }
    }
}

/// How many bytes of a text are of a kind, up to the first that isn't.
fn front_len(kind: Kind, text: &[u8]) -> usize
    ensures len { result ≡ prefix_len (is_of kind) text.now }
    ensures within { result ≤ length text.now }
{
    for (at, byte) in text.iter().enumerate() {
        if !kind.has(*byte) {
            return at;
        }
    }
    text.len()
}

/// The longest front of a text whose bytes are of a kind, and what follows it.
#[tactic(auto, using(crate::proofs::Fronts::front_taken, crate::proofs::Fronts::past_dropped))]
pub(crate) fn cut(kind: Kind, text: &[u8]) -> (&[u8], &[u8])
    ensures front { result.0.now ≡ front (is_of kind) text.now }
    ensures behind { result.1.now ≡ past (is_of kind) text.now }
{
    text.split_at(front_len(kind, text))
}

/// What follows white space at the front of a text.
pub(crate) fn past_space(text: &[u8]) -> &[u8]
    ensures { result.now ≡ past (is_of Kind.Space) text.now }
{
    let (_space, rest) = cut(Kind::Space, text);
    rest
}

/// What follows the first byte, if there is one.
pub(crate) fn behind_first(text: &[u8]) -> Option<&[u8]>
    ensures { option_map (λ r. r.now) result ≡ behind_first text.now }
{
    match text {
        [_, rest @ ..] => Some(rest),
        [] => None,
    }
}
