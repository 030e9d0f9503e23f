//! A task of any size: counters that start at 0, each of which is to end below the next.
#![tactic(auto)]

ghost use Rattle.std.specs.Prelude.{◌≡◌, ◌≤◌, ◌++◌, IfOk, OnOk, string_bytes};
ghost use Rattle.task_gen.specs.Counters.{domain_text, problem_text, object_text, start_text, link_text, of_counters};

use num_ends::{NoMemory, Text};
use std::alloc::{AllocError, Global};

const DOMAIN: &str = "(define (domain counters)
(:types counter)
(:functions (value ?c - counter) (top))
(:action increment :parameters (?c - counter) :precondition (<= (+ (value ?c) 1) (top)) :effect (increase (value ?c) 1))
(:action decrement :parameters (?c - counter) :precondition (>= (value ?c) 1) :effect (decrease (value ?c) 1)))
";

/// The domain's and the problem's text of the task with that many counters, from 2 to 64.
///
/// No counter may pass twice their number.
pub fn generate(alloc: Global, size: u32) -> Result<(Text, Text), NoMemory>
    requires some { 2 ≤ size }
    requires few { size ≤ 64 }
    ensures { IfOk result (λ texts. (texts.0 ≡ domain_text) × (texts.1 ≡ problem_text size)) }
{
    let domain = domain(alloc)?;
    let problem = problem(alloc, size)?;
    Ok((
        Text::from_vec(domain.into_bytes()),
        Text::from_vec(problem.into_bytes()),
    ))
}

#[tactic(auto, unfolding(crate::specs::Counters::domain_text))]
fn domain(alloc: Global) -> Result<String, AllocError>
    ensures { IfOk result (λ text. string_bytes text ≡ domain_text) }
{
    String::from_str(alloc, DOMAIN)
}

#[tactic(auto, unfolding(crate::specs::Counters::problem_text))]
fn problem(alloc: Global, size: u32) -> Result<String, AllocError>
    requires some { 2 ≤ size }
    requires few { size ≤ 64 }
    ensures { IfOk result (λ text. string_bytes text ≡ problem_text size) }
{
    let mut text = String::from_str(
        alloc,
        "(define (problem counters)\n(:domain counters)\n(:objects",
    )?;
    push_objects(&mut text, size)?;
    write!(text, " - counter)\n(:init (= (top) {})", 2 * size)?;
    push_starts(&mut text, size)?;
    text.push_str(")\n(:goal (and")?;
    push_links(&mut text, size - 1)?;
    text.push_str(")))\n")?;
    Ok(text)
}

fn push_objects(text: &mut String, count: u32) -> Result<(), AllocError>
    ensures { OnOk result (string_bytes text.new ≡ string_bytes text.old ++ of_counters object_text count) }
{
    'counters: for i in 0..count {
        write!(text, " c{i}")?;
    }
    Ok(())
}

fn push_starts(text: &mut String, count: u32) -> Result<(), AllocError>
    ensures { OnOk result (string_bytes text.new ≡ string_bytes text.old ++ of_counters start_text count) }
{
    'counters: for i in 0..count {
        write!(text, " (= (value c{i}) 0)")?;
    }
    Ok(())
}

fn push_links(text: &mut String, count: u32) -> Result<(), AllocError>
    ensures { OnOk result (string_bytes text.new ≡ string_bytes text.old ++ of_counters link_text count) }
{
    'counters: for i in 0..count {
        let next = i + 1;
        write!(text, " (<= (+ (value c{i}) 1) (value c{next}))")?;
    }
    Ok(())
}
