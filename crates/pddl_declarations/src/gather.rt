//! Values that are gathered where they are there.

ghost use Rattle.std.specs.Prelude.{◌≡◌, ◌++◌, OnOk};
ghost use Rattle.pddl_trees.specs.Declarations.{one_item};

use num_ends::NoMemory;

/// Adds a value that is there at the end.
pub fn push_some<T: Drop>(items: &mut Vec<T>, item: Option<T>) -> Result<(), NoMemory>
    ensures { OnOk result (items.new.items ≡ items.old.items ++ one_item item) }
{
    if let Some(item) = item {
        items.push(item)?;
    }
    Ok(())
}
