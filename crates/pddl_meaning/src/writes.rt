//! What is written into a world once its next one is known.

ghost use Rattle.std.specs.Prelude.{◌≡◌, IfOk, OnOk};
ghost use Rattle.std.specs.FinSet as set;
ghost use Rattle.std.specs.List.{zip};
ghost use Rattle.pddl_meaning.specs.internal.Computed.{with_values, written};

use crate::effects::Evaluation;
use crate::world::World;
use num_ends::{Dec, List, NoMemory, Text};

/// The change from a world to the next.
#[derive(Debug, Drop)]
pub(crate) struct Writes {
    /// The facts that are deleted.
    pub(crate) deleted: List<Text>,
    /// The facts that are added, after that.
    pub(crate) added: List<Text>,
    /// The changed fluents, some of them maybe more than once.
    pub(crate) evaluations: List<Evaluation>,
    /// The new value of each.
    pub(crate) news: List<Dec>,
}

/// What an action does in a world, which isn't changed yet.
#[derive(Debug, Drop)]
pub(crate) enum Prepared {
    Ready(Writes),
    Blocked,
    Illegal,
    Over,
}

/// An equal world.
pub(crate) fn copy_of(world: &World) -> Result<World, NoMemory>
    ensures { IfOk result (λ copy. copy ≡ world.now) }
{
    Ok(World {
        facts: world.facts.clone()?,
        values: world.values.clone()?,
    })
}

fn delete_facts(world: &mut World, texts: &[Text])
    ensures { world.new ≡ record { facts = set.difference world.old.facts (set.from_list texts.now); values = world.old.values } }
{
    'each: for text in texts {
        world.remove_fact(text.as_slice());
    }
}

#[tactic(auto, using(crate::proofs::Written::added_last, crate::proofs::Written::none_added))]
fn add_facts(world: &mut World, texts: List<Text>) -> Result<(), NoMemory>
    ensures { OnOk result (world.new ≡ record { facts = set.union world.old.facts (set.from_list texts); values = world.old.values }) }
{
    'each: for text in texts.into_vec() {
        world.add_fact(text.into_vec())?;
    }
    Ok(())
}

fn set_values(
    world: &mut World,
    evaluations: List<Evaluation>,
    news: List<Dec>,
) -> Result<(), NoMemory>
    ensures { OnOk result (world.new ≡ record { facts = world.old.facts; values = with_values world.old.values (zip evaluations news) }) }
{
    'each: for (evaluation, new) in evaluations.into_vec().into_iter().zip(news.into_vec()) {
        let Evaluation { fluent, .. } = evaluation;
        world.set_value(fluent.into_vec(), new)?;
    }
    Ok(())
}

/// Writes a change. Without memory any part of it may be written.
pub(crate) fn write(world: &mut World, writes: Writes) -> Result<(), NoMemory>
    ensures { OnOk result (world.new ≡ written world.old writes) }
{
    let Writes {
        deleted,
        added,
        evaluations,
        news,
    } = writes;
    delete_facts(world, deleted.as_slice());
    add_facts(world, added)?;
    set_values(world, evaluations, news)
}
