//! The first thing that a line tells.

ghost use Rattle.std.specs.Prelude.{◌≡◌, ◌≤◌, ℤ, Bool, MatchOption, option_map};
ghost use Rattle.num_ends.specs.Ends.{Interval, whole_line};
ghost use Rattle.box_model.specs.declared.state_box.May.{May};
ghost use Rattle.cert_text.specs.Lines.{may_text, truth_text};
ghost use Rattle.cert_reader.specs.Spelling.{MayLeaveOut, SpellsInterval, SpellsNumber, facts_of_box, fluents_of_box, facts_of_state, fluents_of_state};
ghost use Rattle.cert_reader.specs.internal.Fronts.{IsFirst};

use crate::cuts::said_of;
use crate::values::{interval_of, may_of, number_of, truth_of};
use box_model::May;
use cert_text::Version;
use num_ends::{Dec, Interval};

fn told_fact<'a>(said: &[u8], rest: &'a [u8]) -> Option<(May, &'a [u8])>
    ensures { MatchOption result ((may : May) → said.now ≡ may_text may → ⊥) (λ r. (said.now ≡ may_text r.0) × (r.1.now ≡ rest.now)) }
{
    match may_of(said) {
        Some(may) => Some((may, rest)),
        None => None,
    }
}

fn fact_left_out(version: Version, line: &[u8]) -> Option<(May, &[u8])>
    ensures { MatchOption result ((may : May) → MayLeaveOut version × (may ≡ May.Any) → ⊥) (λ r. (MayLeaveOut version × (r.0 ≡ May.Any)) × (r.1.now ≡ line.now)) }
{
    match version {
        Version::Full => None,
        Version::Short => Some((May::Any, line)),
    }
}

/// The truth values of a fact in a box, and the rest of the line.
pub(crate) fn first_fact<'a>(
    version: Version,
    name: &[u8],
    line: &'a [u8],
) -> Option<(May, &'a [u8])>
    ensures { IsFirst (facts_of_box version) name.now line.now (option_map (λ r. (r.0, r.1.now)) result) }
{
    match said_of(name, line) {
        Some(parts) => told_fact(parts.0, parts.1),
        None => fact_left_out(version, line),
    }
}

fn told_interval<'a>(said: &[u8], places: u8, rest: &'a [u8]) -> Option<(Interval, &'a [u8])>
    requires { places ≤ 9 }
    ensures { MatchOption result ((i : Interval) → SpellsInterval places said.now i → ⊥) (λ r. SpellsInterval places said.now r.0 × (r.1.now ≡ rest.now)) }
{
    match interval_of(said, places) {
        Some(interval) => Some((interval, rest)),
        None => None,
    }
}

fn fluent_left_out(version: Version, line: &[u8]) -> Option<(Interval, &[u8])>
    ensures { MatchOption result ((i : Interval) → MayLeaveOut version × (i ≡ whole_line) → ⊥) (λ r. (MayLeaveOut version × (r.0 ≡ whole_line)) × (r.1.now ≡ line.now)) }
{
    match version {
        Version::Full => None,
        Version::Short => Some((Interval::whole(), line)),
    }
}

/// The interval of a fluent in a box, and the rest of the line.
pub(crate) fn first_interval<'a>(
    version: Version,
    name: &[u8],
    places: u8,
    line: &'a [u8],
) -> Option<(Interval, &'a [u8])>
    requires { places ≤ 9 }
    ensures { IsFirst (fluents_of_box version) (name.now, places) line.now (option_map (λ r. (r.0, r.1.now)) result) }
{
    match said_of(name, line) {
        Some(parts) => told_interval(parts.0, places, parts.1),
        None => fluent_left_out(version, line),
    }
}

fn told_truth<'a>(said: &[u8], rest: &'a [u8]) -> Option<(bool, &'a [u8])>
    ensures { MatchOption result ((truth : Bool) → said.now ≡ truth_text truth → ⊥) (λ r. (said.now ≡ truth_text r.0) × (r.1.now ≡ rest.now)) }
{
    match truth_of(said) {
        Some(truth) => Some((truth, rest)),
        None => None,
    }
}

/// The truth value of a fact in a state, and the rest of the line.
pub(crate) fn first_truth<'a>(name: &[u8], line: &'a [u8]) -> Option<(bool, &'a [u8])>
    ensures { IsFirst facts_of_state name.now line.now (option_map (λ r. (r.0, r.1.now)) result) }
{
    match said_of(name, line) {
        Some(parts) => told_truth(parts.0, parts.1),
        None => None,
    }
}

fn told_number<'a>(said: &[u8], places: u8, rest: &'a [u8]) -> Option<(Dec, &'a [u8])>
    requires { places ≤ 9 }
    ensures { MatchOption result ((n : ℤ) → SpellsNumber places said.now n → ⊥) (λ r. SpellsNumber places said.now r.0.n × (r.1.now ≡ rest.now)) }
{
    match number_of(said, places) {
        Some(value) => Some((value, rest)),
        None => None,
    }
}

/// The value of a fluent in a state, at its places, and the rest of the line.
pub(crate) fn first_number<'a>(name: &[u8], places: u8, line: &'a [u8]) -> Option<(Dec, &'a [u8])>
    requires { places ≤ 9 }
    ensures { IsFirst fluents_of_state (name.now, places) line.now (option_map (λ r. (r.0.n, r.1.now)) result) }
{
    match said_of(name, line) {
        Some(parts) => told_number(parts.0, places, parts.1),
        None => None,
    }
}
