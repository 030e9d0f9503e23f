//! The words of refusals.

ghost use Rattle.std.specs.Prelude.{◌≡◌};
ghost use Rattle.pair_text.specs.Lines.{kind_word, line_reason_word, source_word, what_word};

use crate::refusals::{LineReason, Source};
use pddl_terms::What;
use pddl_types::CheckKind;

pub(crate) fn source_word(source: Source) -> &'static [u8]
    ensures { result.now ≡ source_word source }
{
    match source {
        Source::Domain => b"domain",
        Source::Problem => b"problem",
        Source::Plan => b"plan",
        Source::Certificate => b"certificate",
    }
}

pub(crate) fn line_reason_word(reason: LineReason) -> &'static [u8]
    ensures { result.now ≡ line_reason_word reason }
{
    match reason {
        LineReason::BadLine => b"BADLINE",
        LineReason::EndsEarly => b"ENDSEARLY",
        LineReason::TooMany => b"TOOMANY",
    }
}

pub(crate) fn what_word(what: What) -> &'static [u8]
    ensures { result.now ≡ what_word what }
{
    match what {
        What::Objects => b"objects",
        What::Parameters => b"parameters",
        What::Effects => b"effects",
        What::Letters => b"letters",
        What::Facts => b"facts",
        What::Fluents => b"fluents",
        What::Actions => b"actions",
        What::Prefixes => b"prefixes",
        What::Supporters => b"supporters",
    }
}

pub(crate) fn kind_word(kind: CheckKind) -> &'static [u8]
    ensures { result.now ≡ kind_word kind }
{
    match kind {
        CheckKind::Duplicate => b"DUPLICATE",
        CheckKind::UnknownType => b"UNKNOWNTYPE",
        CheckKind::CyclicType => b"CYCLICTYPE",
        CheckKind::UnknownName => b"UNKNOWNNAME",
        CheckKind::Arity => b"ARITY",
        CheckKind::WrongType => b"WRONGTYPE",
        CheckKind::Divide => b"DIVIDE",
    }
}
