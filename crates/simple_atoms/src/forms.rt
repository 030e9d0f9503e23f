//! Expressions and comparisons as linear forms.

ghost use Rattle.std.specs.Prelude.{◌≡◌, [], ◌∷◌, ◌++◌, IfOk, OnOk};
ghost use Rattle.num_ends.specs.Decimal.{origin};
ghost use Rattle.simple_atoms.specs.Forms.{combined, difference_of_forms, form_of, form_of_difference, is_equation, is_strict, is_upward, linear_form, marked, merged, negative_form, one, product_of_forms, scaled, scaled_terms, sum_of_forms, with_term};

use crate::combination::Combination;
use crate::linear::Linear;
use crate::operations::{negative, product, sum};
use ground_task::{GExpr, Rel};
use num_ends::{Dec, List, NoMemory};
use std::alloc::Global;

/// Adds a term at the end, where its coefficient is not 0.
fn push_term(terms: &mut List<(u32, Dec)>, fluent: u32, coefficient: Dec) -> Result<(), NoMemory>
    ensures { OnOk result (terms.new ≡ terms.old ++ with_term (fluent, coefficient) []) }
{
    if coefficient.n == 0 {
        return Ok(());
    }
    terms.push((fluent, coefficient))
}

/// The terms of both, in order; none where a coefficient leaves the range.
#[tactic(auto, using(crate::proofs::Loops::first_comes, crate::proofs::Loops::second_comes, crate::proofs::Loops::both_come, crate::proofs::Loops::none_come, crate::proofs::Loops::merged_end))]
fn merge(
    alloc: Global,
    left: &[(u32, Dec)],
    right: &[(u32, Dec)],
) -> Result<Option<List<(u32, Dec)>>, NoMemory>
    ensures { IfOk result (λ terms. terms ≡ merged left.now right.now) }
{
    let mut terms = List::new(alloc);
    let mut i = 0;
    let mut j = 0;
    'front: while i < left.len() && j < right.len() {
        let one = left[i];
        let other = right[j];
        if one.0 < other.0 {
            terms.push(one)?;
            i += 1;
        } else if other.0 < one.0 {
            terms.push(other)?;
            j += 1;
        } else {
            let Some(total) = sum(one.1, other.1) else {
                return Ok(None);
            };
            push_term(&mut terms, one.0, total)?;
            i += 1;
            j += 1;
        }
    }
    terms.extend_from_slice(&left[i..])?;
    terms.extend_from_slice(&right[j..])?;
    Ok(Some(terms))
}

fn sum_of_forms(
    alloc: Global,
    left: &Combination,
    right: &Combination,
) -> Result<Option<Combination>, NoMemory>
    ensures { IfOk result (λ form. form ≡ sum_of_forms left.now right.now) }
{
    let Some(terms) = merge(alloc, left.terms.as_slice(), right.terms.as_slice())? else {
        return Ok(None);
    };
    match sum(left.constant, right.constant) {
        Some(constant) => Ok(Some(Combination { terms, constant })),
        None => Ok(None),
    }
}

fn negative_form(alloc: Global, form: &Combination) -> Result<Combination, NoMemory>
    ensures { IfOk result (λ negated. negated ≡ negative_form form.now) }
{
    let mut terms = List::new(alloc);
    'each: for term in form.terms.as_slice() {
        terms.push((term.0, negative(term.1)))?;
    }
    Ok(Combination {
        terms,
        constant: negative(form.constant),
    })
}

fn difference_of_forms(
    alloc: Global,
    left: &Combination,
    right: &Combination,
) -> Result<Option<Combination>, NoMemory>
    ensures { IfOk result (λ form. form ≡ difference_of_forms left.now right.now) }
{
    let negated = negative_form(alloc, right)?;
    sum_of_forms(alloc, left, &negated)
}

/// Each coefficient times a factor; none where one leaves the range.
#[tactic(auto, using(crate::proofs::Loops::scaled_some, crate::proofs::Loops::scaled_none, crate::proofs::Loops::scaled_end))]
fn scaled_terms(
    alloc: Global,
    factor: Dec,
    terms: &[(u32, Dec)],
) -> Result<Option<List<(u32, Dec)>>, NoMemory>
    ensures { IfOk result (λ products. products ≡ scaled_terms factor terms.now) }
{
    let mut products = List::new(alloc);
    'each: for term in terms {
        let Some(coefficient) = product(factor, term.1) else {
            return Ok(None);
        };
        push_term(&mut products, term.0, coefficient)?;
    }
    Ok(Some(products))
}

fn scaled(alloc: Global, factor: Dec, form: &Combination) -> Result<Option<Combination>, NoMemory>
    ensures { IfOk result (λ product. product ≡ scaled factor form.now) }
{
    let Some(terms) = scaled_terms(alloc, factor, form.terms.as_slice())? else {
        return Ok(None);
    };
    match product(factor, form.constant) {
        Some(constant) => Ok(Some(Combination { terms, constant })),
        None => Ok(None),
    }
}

/// The product, where one factor has no terms.
fn product_of_forms(
    alloc: Global,
    left: &Combination,
    right: &Combination,
) -> Result<Option<Combination>, NoMemory>
    ensures { IfOk result (λ form. form ≡ product_of_forms left.now right.now) }
{
    if left.terms.len() == 0 {
        return scaled(alloc, left.constant, right);
    }
    if right.terms.len() == 0 {
        return scaled(alloc, right.constant, left);
    }
    Ok(None)
}

fn read_form(alloc: Global, fluent: u32) -> Result<Combination, NoMemory>
    ensures { IfOk result (λ form. form ≡ record { terms = (fluent, one) ∷ []; constant = origin }) }
{
    let mut terms = List::new(alloc);
    terms.push((fluent, Dec { n: 1, p: 0 }))?;
    Ok(Combination {
        terms,
        constant: Dec { n: 0, p: 0 },
    })
}

fn sum_of(
    alloc: Global,
    left: Option<Combination>,
    right: Option<Combination>,
) -> Result<Option<Combination>, NoMemory>
    ensures { IfOk result (λ form. form ≡ combined sum_of_forms left right) }
{
    match (left, right) {
        (Some(left), Some(right)) => sum_of_forms(alloc, &left, &right),
        _ => Ok(None),
    }
}

fn difference_of(
    alloc: Global,
    left: Option<Combination>,
    right: Option<Combination>,
) -> Result<Option<Combination>, NoMemory>
    ensures { IfOk result (λ form. form ≡ combined difference_of_forms left right) }
{
    match (left, right) {
        (Some(left), Some(right)) => difference_of_forms(alloc, &left, &right),
        _ => Ok(None),
    }
}

fn product_of(
    alloc: Global,
    left: Option<Combination>,
    right: Option<Combination>,
) -> Result<Option<Combination>, NoMemory>
    ensures { IfOk result (λ form. form ≡ combined product_of_forms left right) }
{
    match (left, right) {
        (Some(left), Some(right)) => product_of_forms(alloc, &left, &right),
        _ => Ok(None),
    }
}

/// The form of an expression; none where it isn't linear or something leaves the range.
#[tactic(auto, using(crate::proofs::Layers::form_of_Const, crate::proofs::Layers::form_of_Read, crate::proofs::Layers::form_of_Add, crate::proofs::Layers::form_of_Sub, crate::proofs::Layers::form_of_Mul))]
fn form_of(alloc: Global, expr: &GExpr) -> Result<Option<Combination>, NoMemory>
    ensures { IfOk result (λ form. form ≡ form_of expr.now) }
{
    match expr {
        GExpr::Const(constant) => Ok(Some(Combination {
            terms: List::new(alloc),
            constant: constant.trim(),
        })),
        GExpr::Read(fluent) => Ok(Some(read_form(alloc, *fluent)?)),
        GExpr::Add(left, right) => {
            let left = form_of(alloc, left.get())?;
            let right = form_of(alloc, right.get())?;
            sum_of(alloc, left, right)
        }
        GExpr::Sub(left, right) => {
            let left = form_of(alloc, left.get())?;
            let right = form_of(alloc, right.get())?;
            difference_of(alloc, left, right)
        }
        GExpr::Mul(left, right) => {
            let left = form_of(alloc, left.get())?;
            let right = form_of(alloc, right.get())?;
            product_of(alloc, left, right)
        }
    }
}

fn form_of_difference(
    alloc: Global,
    left: &GExpr,
    right: &GExpr,
) -> Result<Option<Combination>, NoMemory>
    ensures { IfOk result (λ form. form ≡ form_of_difference left.now right.now) }
{
    let left = form_of(alloc, left)?;
    let right = form_of(alloc, right)?;
    difference_of(alloc, left, right)
}

fn is_upward(rel: Rel) -> bool
    ensures { result ≡ is_upward rel }
{
    match rel {
        Rel::Less | Rel::LessEqual => false,
        Rel::Equal | Rel::GreaterEqual | Rel::Greater => true,
    }
}

fn is_strict(rel: Rel) -> bool
    ensures { result ≡ is_strict rel }
{
    match rel {
        Rel::Less | Rel::Greater => true,
        Rel::LessEqual | Rel::Equal | Rel::GreaterEqual => false,
    }
}

fn is_equation(rel: Rel) -> bool
    ensures { result ≡ is_equation rel }
{
    match rel {
        Rel::Equal => true,
        Rel::Less | Rel::LessEqual | Rel::GreaterEqual | Rel::Greater => false,
    }
}

fn marked(rel: Rel, form: Combination) -> Linear
    ensures { result ≡ marked rel form }
{
    Linear {
        strict: is_strict(rel),
        equal: is_equation(rel),
        terms: form.terms,
        constant: form.constant,
    }
}

/// The linear form of a comparison: the left side minus the right one, or the other way round for `Less` and
/// `LessEqual`.
///
/// `None` where it isn't linear, that is where both factors of a product have terms, or where something leaves the range
/// on the way.
pub fn linear_form(
    alloc: Global,
    rel: Rel,
    left: &GExpr,
    right: &GExpr,
) -> Result<Option<Linear>, NoMemory>
    ensures { IfOk result (λ form. form ≡ linear_form rel left.now right.now) }
{
    let form = if is_upward(rel) {
        form_of_difference(alloc, left, right)?
    } else {
        form_of_difference(alloc, right, left)?
    };
    match form {
        Some(form) => Ok(Some(marked(rel, form))),
        None => Ok(None),
    }
}
