//! Numbers in order.

ghost use Rattle.numbering.specs.Named.{IsRisingFrom};

/// The numbers, each once, rising.
#[tactic(auto, using(crate::proofs::InOrder::rising_from))]
pub(crate) fn rising(codes: Vec<u128>) -> Vec<u128>
    ensures { IsRisingFrom codes.items result.items }
{
    let mut codes = codes;
    codes.sort_unstable();
    codes.dedup();
    codes
}
