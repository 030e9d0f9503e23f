//! Conditions that are the same, and keys by which they are found.

ghost use Rattle.std.specs.Prelude.{◌≡◌, true};

use ground_task::{GCond, GExpr, Rel};
use num_ends::Dec;

/// A key made longer by a word.
fn mixed(key: u64, word: u64) -> u64 {
    key.wrapping_mul(1_000_000_007).wrapping_add(word)
}

/// A number as a word; 0 for one that is none.
fn word_of(number: i128) -> u64 {
    match u64::try_from(number) {
        Ok(word) => word,
        Err(_) => 0,
    }
}

fn key_of_constant(key: u64, constant: Dec) -> u64 {
    mixed(mixed(key, word_of(constant.n)), u64::from(constant.p))
}

fn key_of_expression(key: u64, expr: &GExpr) -> u64 {
    match expr {
        GExpr::Const(constant) => key_of_constant(mixed(key, 1), *constant),
        GExpr::Read(fluent) => mixed(mixed(key, 2), u64::from(*fluent)),
        GExpr::Add(left, right) => {
            key_of_expression(key_of_expression(mixed(key, 3), left.get()), right.get())
        }
        GExpr::Sub(left, right) => {
            key_of_expression(key_of_expression(mixed(key, 4), left.get()), right.get())
        }
        GExpr::Mul(left, right) => {
            key_of_expression(key_of_expression(mixed(key, 5), left.get()), right.get())
        }
    }
}

fn number_of_relation(rel: Rel) -> u64 {
    match rel {
        Rel::Less => 1,
        Rel::LessEqual => 2,
        Rel::Equal => 3,
        Rel::GreaterEqual => 4,
        Rel::Greater => 5,
    }
}

/// The key of a comparison.
pub(crate) fn key_of_comparison(rel: Rel, left: &GExpr, right: &GExpr) -> u64 {
    let key = key_of_expression(number_of_relation(rel), left);
    key_of_expression(key, right)
}

/// The key of a literal.
pub(crate) fn key_of_literal(fact: u32, truth: bool) -> u64 {
    mixed(if truth { 6 } else { 7 }, u64::from(fact))
}

fn same_constant(one: Dec, other: Dec) -> bool
    ensures { result ≡ true → one ≡ other }
{
    one.n == other.n && one.p == other.p
}

/// Whether two expressions are the same.
pub(crate) fn same_expression(one: &GExpr, other: &GExpr) -> bool
    ensures { result ≡ true → one.now ≡ other.now }
{
    match (one, other) {
        (GExpr::Const(a), GExpr::Const(b)) => same_constant(*a, *b),
        (GExpr::Read(a), GExpr::Read(b)) => *a == *b,
        (GExpr::Add(a, c), GExpr::Add(b, d)) => {
            same_expression(a.get(), b.get()) && same_expression(c.get(), d.get())
        }
        (GExpr::Sub(a, c), GExpr::Sub(b, d)) => {
            same_expression(a.get(), b.get()) && same_expression(c.get(), d.get())
        }
        (GExpr::Mul(a, c), GExpr::Mul(b, d)) => {
            same_expression(a.get(), b.get()) && same_expression(c.get(), d.get())
        }
        _ => false,
    }
}

/// Whether two literals, or two comparisons, are the same.
pub(crate) fn same_atom(one: &GCond, other: &GCond) -> bool
    ensures { result ≡ true → one.now ≡ other.now }
{
    match (one, other) {
        (GCond::Fact(a, truth), GCond::Fact(b, other)) => *a == *b && *truth == *other,
        (GCond::Cmp(r, a, c), GCond::Cmp(s, b, d)) => {
            *r == *s && same_expression(a, b) && same_expression(c, d)
        }
        _ => false,
    }
}
