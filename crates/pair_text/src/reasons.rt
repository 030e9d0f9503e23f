//! The reasons that faults are.

ghost use Rattle.std.specs.Prelude.{◌≡◌, ◌≤◌, ◌^◌, length};
ghost use Rattle.std.specs.Option.{option_map_or};
ghost use Rattle.pair_text.specs.declared.refusals.PairFault.TheVariants as answer;
ghost use Rattle.pair_text.specs.declared.refusals.Refusal.TheVariants.{At};
ghost use Rattle.pair_text.specs.declared.refusals.Reason.TheVariants as reason_of;
ghost use Rattle.pair_text.specs.Places.{place_of};
ghost use Rattle.pair_text.specs.Reasons.{reading_reason, source_of, side_text, text_reason};

use crate::places::place_of;
use crate::refusals::{PairFault, Reason, Refusal, Source};
use pddl_reader::ReadFault;
use pddl_terms::Name;
use pddl_types::{CheckKind, Side};
use sexp_text::SexpFault;

/// The reason that a fault of brackets and bytes is, with its position; want of memory is none.
fn text_reason(fault: SexpFault) -> Option<(u32, Reason)>
    ensures { result ≡ text_reason fault }
{
    match fault {
        SexpFault::Unclosed(at) => Some((at, Reason::Unclosed)),
        SexpFault::Stray(at) => Some((at, Reason::Stray)),
        SexpFault::BadByte(at) => Some((at, Reason::BadByte)),
        SexpFault::TooDeep(at) => Some((at, Reason::TooDeep)),
        SexpFault::NoMemory => None,
    }
}

/// The reason that a fault of reading is, with its position.
fn reading_reason(fault: ReadFault) -> Option<(u32, Reason)>
    ensures { result ≡ reading_reason fault }
{
    match fault {
        ReadFault::Syntax(fault) => text_reason(fault),
        ReadFault::Unsupported(name) => Some((name.at, Reason::Unsupported(name.text))),
        ReadFault::Shape(at) => Some((at, Reason::Shape)),
        ReadFault::Number(at) => Some((at, Reason::Number)),
        ReadFault::TooDeep(at) => Some((at, Reason::TooDeep)),
        ReadFault::TooMany(what, at) => Some((at, Reason::TooMany(what))),
        ReadFault::NoMemory => None,
    }
}

/// The answer to a fault of reading a file with this text.
pub(crate) fn reading_fault(source: Source, text: &[u8], fault: ReadFault) -> PairFault
    requires { length text.now ≤ 2 ^ 30 }
    ensures { result ≡ option_map_or (λ r. answer.Refused (At source (place_of text.now r.0) r.1)) (reading_reason fault) answer.NoMemory }
{
    match reading_reason(fault) {
        Some((at, reason)) => PairFault::Refused(Refusal::At(source, place_of(text, at), reason)),
        None => PairFault::NoMemory,
    }
}

/// The answer to a fault of the pair whose files have these texts.
pub(crate) fn pair_fault(
    domain: &[u8],
    problem: &[u8],
    side: Side,
    kind: CheckKind,
    name: Name,
) -> PairFault
    requires domain { length domain.now ≤ 2 ^ 30 }
    requires problem { length problem.now ≤ 2 ^ 30 }
    ensures { result ≡ answer.Refused (At (source_of side) (place_of (side_text side domain.now problem.now) name.at) (reason_of.Ill kind name.text)) }
{
    let (source, text) = match side {
        Side::Domain => (Source::Domain, domain),
        Side::Problem => (Source::Problem, problem),
    };
    let reason = Reason::Ill(kind, name.text);
    PairFault::Refused(Refusal::At(source, place_of(text, name.at), reason))
}
