//! The types that are their own ancestors, found in time near the number of types.

ghost use Rattle.std.specs.Prelude.{◌≡◌, ◌<◌, ◌^◌, [], IfOk, OnOk, map};
ghost use Rattle.std.specs.Option.{option_copied};
ghost use Rattle.type_order.specs.Types.{descends};
ghost use Rattle.type_order.specs.internal.Jumps.{far_above, jumped_again, jumps_of, with_ends};

use crate::order::TypeOrder;
use name_table::NameSet;
use num_ends::NoMemory;
use sqlite_items::at;
use std::alloc::Global;
use std::marker::Model;

// How often a step is doubled, so that a jump has more steps than there are types.
fn doublings(count: usize) -> usize
    ensures { count < 2 ^ result }
{
    (usize::BITS - count.leading_zeros()) as usize
}

/// The types that are their own ancestors. Contracts see the list of all declared types.
#[derive(Drop)]
pub struct Cycles<'a> {
    order: TypeOrder<'a>,
    ends: NameSet<'a>,
}

impl<'a> Model for Cycles<'a> {
    ghost use Rattle.std.specs.Prelude.{List, ℕ, ◌≡◌};
    ghost use Rattle.pddl_terms.specs.declared.names.Typed.{Typed};
    ghost use Rattle.name_table.specs.Tables.{is_text_among};
    ghost use Rattle.type_order.specs.Types.{descends};

    ghost Value = { List Typed };

    ghost view = { λ c. c.order };

    ghost invariant = { λ c. (k : List ℕ) → is_text_among k c.ends ≡ descends c.order k k };
}

// The step up from each type.
#[tactic(auto, unfolding(crate::specs::internal::Jumps::far_above, crate::specs::internal::Jumps::jumps_of))]
fn steps<'a>(alloc: Global, order: &TypeOrder<'a>) -> Result<Vec<Option<&'a [u8]>>, NoMemory>
    ensures { IfOk result (λ jumps. map option_copied jumps.items ≡ jumps_of order.now 0) }
{
    let mut jumps = Vec::new(alloc);
    'each: for item in order.types() {
        jumps.push(order.parent(item.name.text.as_slice()))?;
    }
    Ok(jumps)
}

// From where a jump ends, the jump of the type there.
fn again<'a>(
    order: &TypeOrder,
    jumps: &[Option<&'a [u8]>],
    end: Option<&'a [u8]>,
) -> Option<&'a [u8]>
    ensures { option_copied result ≡ jumped_again order.now (map option_copied jumps.now) (option_copied end.entry) }
{
    match end {
        None => None,
        Some(kind) => match order.number(kind) {
            None => None,
            Some(place) => match at(jumps, place) {
                Some(jump) => *jump,
                None => None,
            },
        },
    }
}

// Each jump made twice.
fn doubled<'a>(
    alloc: Global,
    order: &TypeOrder,
    jumps: &[Option<&'a [u8]>],
) -> Result<Vec<Option<&'a [u8]>>, NoMemory>
    ensures { IfOk result (λ twice. map option_copied twice.items ≡ map (jumped_again order.now (map option_copied jumps.now)) (map option_copied jumps.now)) }
{
    let mut twice = Vec::new(alloc);
    'each: for jump in jumps {
        twice.push(again(order, jumps, *jump))?;
    }
    Ok(twice)
}

// The jumps from all types.
#[tactic(auto, using(crate::proofs::Jumps::doubled_jumps))]
fn jumps<'a>(
    alloc: Global,
    order: &TypeOrder<'a>,
    doublings: usize,
) -> Result<Vec<Option<&'a [u8]>>, NoMemory>
    ensures { IfOk result (λ jumps. map option_copied jumps.items ≡ jumps_of order.now doublings) }
{
    let mut jumps = steps(alloc, order)?;
    'each: for _round in 0..doublings {
        jumps = doubled(alloc, order, jumps.as_slice())?;
    }
    Ok(jumps)
}

fn add_ends<'a>(jumps: &[Option<&'a [u8]>], seen: &mut NameSet<'a>) -> Result<(), NoMemory>
    ensures { OnOk result (seen.new ≡ with_ends seen.old (map option_copied jumps.now)) }
{
    'each: for jump in jumps {
        if let Some(kind) = jump {
            seen.add(kind)?;
        }
    }
    Ok(())
}

// The types where jumps end.
fn ends<'a>(alloc: Global, order: &TypeOrder<'a>, doublings: usize) -> Result<NameSet<'a>, NoMemory>
    ensures { IfOk result (λ ends. ends ≡ with_ends [] (jumps_of order.now doublings)) }
{
    let jumps = jumps(alloc, order, doublings)?;
    let mut ends = NameSet::new(alloc);
    add_ends(jumps.as_slice(), &mut ends)?;
    Ok(ends)
}

impl<'a> Cycles<'a> {
    /// Finds the types that are their own ancestors.
    pub fn find(alloc: Global, order: TypeOrder<'a>) -> Result<Cycles<'a>, NoMemory>
        ensures { IfOk result (λ cycles. cycles ≡ order.entry) }
    {
        let doublings = doublings(order.count());
        let ends = ends(alloc, &order, doublings)?;
        Ok(Cycles { order, ends })
    }

    /// Whether a type is its own ancestor.
    pub fn has(&self, kind: &[u8]) -> bool
        ensures { result ≡ descends self.now kind.now kind.now }
    {
        self.ends.has(kind)
    }
}
