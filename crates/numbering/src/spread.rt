//! The least set that has some numbers and is closed under edges.

ghost use Rattle.std.specs.Prelude.{◌≡◌, OnOk, IfOk, map, nat_eq};
ghost use Rattle.std.specs.List.Sorted.{IsNonDecreasingBy};
ghost use Rattle.indexmap.specs.IndexSet.{insert_all};
ghost use Rattle.numbering.specs.internal.Closures.{AreFrom, IsClosure};

use indexmap::IndexSet;
use num_ends::NoMemory;
use std::alloc::Global;

// The edges from a number.
fn edges_from(edges: &[(u128, u128)], from: u128) -> &[(u128, u128)]
    requires sorted { IsNonDecreasingBy (λ e. e.0) edges.now }
    ensures { AreFrom edges.now from result.now }
{
    let start = edges.partition_point(|e| e.0 < from);
    let later = &edges[start..];
    let end = later.partition_point(|e| e.0 <= from);
    &later[..end]
}

// Adds numbers.
fn add_all(reached: &mut IndexSet<u128>, codes: &[u128]) -> Result<(), NoMemory>
    ensures { OnOk result (reached.new.keys ≡ insert_all nat_eq reached.old.keys codes.now) }
{
    'each: for code in codes {
        reached.insert(*code)?;
    }
    Ok(())
}

// Adds the numbers to which edges go.
fn add_ends(reached: &mut IndexSet<u128>, edges: &[(u128, u128)]) -> Result<(), NoMemory>
    ensures { OnOk result (reached.new.keys ≡ insert_all nat_eq reached.old.keys (map (λ e. e.1) edges.now)) }
{
    'each: for edge in edges {
        reached.insert(edge.1)?;
    }
    Ok(())
}

/// The least set that has the starts and is closed under the edges, which stand in the order of their first numbers:
/// each number is followed once.
pub(crate) fn closure(
    alloc: Global,
    starts: &[u128],
    edges: &[(u128, u128)],
) -> Result<Vec<u128>, NoMemory>
    requires sorted { IsNonDecreasingBy (λ e. e.0) edges.now }
    ensures { IfOk result (λ reached. IsClosure starts.now edges.now reached.items) }
{
    let mut reached = IndexSet::new(alloc);
    add_all(&mut reached, starts)?;
    let mut next = 0;
    'each: while next < reached.len() {
        let code = reached.as_slice()[next];
        add_ends(&mut reached, edges_from(edges, code))?;
        next += 1;
    }
    Ok(Vec::from_slice(alloc, reached.as_slice())?)
}
