//! The initial world.

ghost use Rattle.std.specs.Prelude.{◌≡◌, [], IfOk, map};
ghost use Rattle.std.specs.FinSet as set;
ghost use Rattle.std.specs.FinMap as finite;
ghost use Rattle.num_ends.specs.Decimal.{trimmed};
ghost use Rattle.pddl_terms.specs.Texts.{ground_text};
ghost use Rattle.pddl_meaning.specs.Worlds.{initial_world};

use crate::texts::{Binding, ground_text};
use crate::world::World;
use num_ends::{Dec, NoMemory};
use pddl_terms::Atom;
use pddl_types::Checked;
use std::alloc::Global;

/// The text of an atom without variables.
fn object_text(alloc: Global, atom: &Atom) -> Result<Vec<u8>, NoMemory>
    ensures { IfOk result (λ text. text.items ≡ ground_text [] [] atom.now) }
{
    let nothing = World::empty(alloc);
    let binding = Binding {
        world: &nothing,
        params: &[],
        args: &[],
    };
    ground_text(alloc, &binding, atom)
}

fn with_facts(alloc: Global, mut world: World, facts: &[Atom]) -> Result<World, NoMemory>
    requires { world.facts ≡ set.empty }
    ensures { IfOk result (λ after. after ≡ record { facts = set.from_list (map (ground_text [] []) facts.now); values = world.values }) }
{
    let mut rest = facts.len();
    'each: while rest > 0 {
        rest -= 1;
        world.add_fact(object_text(alloc, &facts[rest])?)?;
    }
    Ok(world)
}

fn with_values(alloc: Global, mut world: World, values: &[(Atom, Dec)]) -> Result<World, NoMemory>
    requires { world.values ≡ finite.empty }
    ensures { IfOk result (λ after. after ≡ record { facts = world.facts; values = finite.from_entries (map (λ v. (ground_text [] [] v.0, trimmed v.1)) values.now) }) }
{
    let mut rest = values.len();
    'each: while rest > 0 {
        rest -= 1;
        let (atom, value) = &values[rest];
        world.set_value(object_text(alloc, atom)?, value.trim())?;
    }
    Ok(world)
}

/// The world of the problem's initial state.
pub fn start(alloc: Global, checked: &Checked) -> Result<World, NoMemory>
    ensures { IfOk result (λ world. world ≡ initial_world checked.now) }
{
    let problem = checked.problem();
    let world = with_facts(alloc, World::empty(alloc), problem.facts.as_slice())?;
    with_values(alloc, world, problem.values.as_slice())
}
