//! Whether a component has more instances than are allowed. Main function: `has_too_many`. The instances are
//! counted one by one, and those of a subcomponent wait until they are counted; so at most as many are counted as
//! are allowed. It allocates the list of those that wait.

ghost use Rattle.std.specs.Prelude.{◌≡◌, ◌++◌, [], OnOk, IfOk};
ghost use Rattle.std.specs.List.{cons_option};
ghost use Rattle.spec_limits.specs.Counting.{places_among, inner_at, SaysWhetherPast};

use oss_base::MOST_INSTANCES;
use port_types::NoMemory;
use spec_names::RefinementTables;
use std::alloc::Global;

/// Puts the place of a component, if it exists.
fn put_place(waiting: &mut Vec<usize>, component: Option<u32>) -> Result<(), NoMemory>
    ensures { OnOk result (waiting.new.items ≡ waiting.old.items ++ cons_option component []) }
{
    if let Some(place) = component {
        waiting.push(place as usize)?;
    }
    Ok(())
}

/// Puts the places of the components that exist, of these.
fn put_places(waiting: &mut Vec<usize>, components: &[Option<u32>]) -> Result<(), NoMemory>
    ensures { OnOk result (waiting.new.items ≡ waiting.old.items ++ places_among components.now) }
{
    for component in components {
        put_place(waiting, *component)?;
    }
    Ok(())
}

/// Puts the subcomponents of the component at a place.
fn put_inner(
    waiting: &mut Vec<usize>,
    refinements: &[RefinementTables],
    place: usize,
) -> Result<(), NoMemory>
    ensures { OnOk result (waiting.new.items ≡ waiting.old.items ++ inner_at refinements.now place) }
{
    match refinements.get(place) {
        None => Ok(()),
        Some(tables) => put_places(waiting, tables.components.as_slice()),
    }
}

/// Whether the component at a place has too many instances, itself counted. (No component contains itself: what is
/// counted is the one size of components that is one more than those of the subcomponents together.)
pub(crate) fn has_too_many(
    alloc: Global,
    refinements: &[RefinementTables],
    root: usize,
) -> Result<bool, NoMemory>
    ensures { IfOk result (SaysWhetherPast refinements.now root) }
{
    let mut waiting = Vec::new(alloc);
    waiting.push(root)?;
    let mut counted = 0;
    'count: while let Some(place) = waiting.pop() {
        if waiting.len() >= MOST_INSTANCES - counted {
            return Ok(true);
        }
        counted += 1;
        put_inner(&mut waiting, refinements, place)?;
    }
    Ok(false)
}
