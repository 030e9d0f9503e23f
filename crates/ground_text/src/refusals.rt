//! The refusals of grounding.

ghost use Rattle.std.specs.Prelude.{◌≡◌, ◌≤◌, ◌^◌, [], length};
ghost use Rattle.std.specs.Option.{option_map_or};
ghost use Rattle.pddl_types.specs.declared.faults.CheckKind.TheVariants as kind;
ghost use Rattle.pair_text.specs.declared.refusals.PairFault.TheVariants as answer;
ghost use Rattle.pair_text.specs.declared.refusals.Refusal.TheVariants.{At};
ghost use Rattle.pair_text.specs.declared.refusals.Reason.TheVariants as reason;
ghost use Rattle.pair_text.specs.Places.{place_of};
ghost use Rattle.pair_text.specs.Reasons.{side_text, source_of};
ghost use Rattle.ground_text.specs.Refusals.{grounding_refusal};

use ground_meaning::GroundFault;
use num_ends::Text;
use pair_text::{PairFault, Reason, Refusal, Source, place_of};
use pddl_types::{CheckKind, Side};
use std::alloc::Global;

// The refusal of a divisor at a place of a file with this text.
fn divisor_refusal(alloc: Global, source: Source, text: &[u8], at: u32) -> Refusal
    requires { length text.now ≤ 2 ^ 30 }
    ensures { result ≡ At source (place_of text.now at) (reason.Ill kind.Divide []) }
{
    let reason = Reason::Ill(CheckKind::Divide, Text::new(alloc));
    Refusal::At(source, place_of(text, at), reason)
}

// The refusal of a divisor at a place of one of the files with these texts.
fn divisor_refusal_in(alloc: Global, domain: &[u8], problem: &[u8], side: Side, at: u32) -> Refusal
    requires domain { length domain.now ≤ 2 ^ 30 }
    requires problem { length problem.now ≤ 2 ^ 30 }
    ensures { result ≡ At (source_of side) (place_of (side_text side domain.now problem.now) at) (reason.Ill kind.Divide []) }
{
    match side {
        Side::Domain => divisor_refusal(alloc, Source::Domain, domain, at),
        Side::Problem => divisor_refusal(alloc, Source::Problem, problem, at),
    }
}

/// The answer to the texts of a domain and a problem, of at most 2^30 bytes each, whose pair has no ground task for this
/// reason: its refusal, or that there was no memory.
pub fn grounding_fault(
    alloc: Global,
    domain: &[u8],
    problem: &[u8],
    fault: GroundFault,
) -> PairFault
    requires domain { length domain.now ≤ 2 ^ 30 }
    requires problem { length problem.now ≤ 2 ^ 30 }
    ensures { result ≡ option_map_or answer.Refused (grounding_refusal domain.now problem.now fault) answer.NoMemory }
{
    let refusal = match fault {
        GroundFault::Unset(text) => Refusal::Unset(text),
        GroundFault::Divide(side, at) => divisor_refusal_in(alloc, domain, problem, side, at),
        GroundFault::Places(text) => Refusal::Places(text),
        GroundFault::Range(text) => Refusal::Range(text),
        GroundFault::TooMany(what, _) => Refusal::Limit(what),
        GroundFault::NoMemory => return PairFault::NoMemory,
    };
    PairFault::Refused(refusal)
}
