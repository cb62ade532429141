//! The first fault of limits. Main function: `first_past_limit`. It touches memory alone, where it counts
//! instances.

ghost use Rattle.std.specs.Prelude.{◌≡◌, [], ◌∷◌, IfOk, OnOk, if◌then◌else◌, flat_map, position};
ghost use Rattle.oss_base.specs.Limits.{most_components, most_parts};
ghost use Rattle.oss_base.specs.Sites.{first_of};
ghost use Rattle.oss_base.specs.declared.fault.FaultKind.TheVariants.{F25, F26, F27};
ghost use Rattle.oss_syntax.specs.declared.component.TreeComponent.{TreeComponent as Component};
ghost use Rattle.oss_syntax.specs.declared.words.PartWord.{PartWord as Part};
ghost use Rattle.oss_syntax.specs.Trees.{component_trees};
ghost use Rattle.spec_names.specs.Directory.{IsDirectoryOf};
ghost use Rattle.spec_names.specs.NamesFaults.{site, past, start_of};
ghost use Rattle.spec_names.specs.Noting.{noted};
ghost use Rattle.spec_limits.specs.LimitFaults.{instances, instances_past, system_past, limit_faults};
ghost use Rattle.spec_limits.specs.Counting.{IsSize, is_system, item_parts_past, component_parts_past};

use crate::instances::has_too_many;
use oss_base::{FaultKind, FaultSite, FirstSite, MOST_COMPONENTS, MOST_PARTS, first_of_both};
use oss_syntax::{PartWord, RefinementItem, SpecTree, TreeComponent};
use port_types::NoMemory;
use spec_names::{Directory, RefinementTables, refinement_items};
use std::alloc::Global;

/// Notes the name of the first component over the limit.
fn note_components(components: &[TreeComponent], first: &mut FirstSite)
    ensures { first.new ≡ noted (past F25 (λ (c : Component). start_of c.name) most_components components.now)
        first.old }
{
    if let Some(component) = components.get(MOST_COMPONENTS) {
        first.note(FaultSite {
            kind: FaultKind::F25,
            offset: component.name.span.start,
        });
    }
}

/// Notes the first listed part over the limit.
fn note_listed(parts: &[PartWord], first: &mut FirstSite)
    ensures { first.new ≡ noted (past F27 (λ (part : Part). start_of part.sub) most_parts parts.now) first.old }
{
    if let Some(part) = parts.get(MOST_PARTS as usize) {
        first.note(FaultSite {
            kind: FaultKind::F27,
            offset: part.sub.span.start,
        });
    }
}

fn note_item(item: &RefinementItem, first: &mut FirstSite)
    ensures { first.new ≡ noted (item_parts_past item.now) first.old }
{
    match item {
        RefinementItem::Sub { .. } => {}
        RefinementItem::Connection { .. } => {}
        RefinementItem::Contract { parts, .. } => note_listed(parts.as_slice(), first),
    }
}

/// Notes the parts over the limit of each item.
fn note_items(items: &[RefinementItem], first: &mut FirstSite)
    ensures { first.new ≡ noted (flat_map item_parts_past items.now) first.old }
{
    for item in items {
        note_item(item, first);
    }
}

/// Notes the parts over the limit of each component.
fn note_parts(components: &[TreeComponent], first: &mut FirstSite)
    ensures { first.new ≡ noted (flat_map component_parts_past components.now) first.old }
{
    for component in components {
        note_items(refinement_items(component), first);
    }
}

/// The place of the system.
fn system_of(components: &[TreeComponent]) -> Option<usize>
    ensures { result ≡ position is_system components.now }
{
    components
        .iter()
        .position(|component| component.system.is_some())
}

/// Notes a component with too many instances.
fn note_if(first: &mut FirstSite, is_past: bool, offset: u32)
    ensures { first.new ≡ noted (if is_past then site F26 offset ∷ [] else []) first.old }
{
    if is_past {
        first.note(FaultSite {
            kind: FaultKind::F26,
            offset,
        });
    }
}

/// Notes the component at a place, where it has too many instances.
fn note_instances(
    alloc: Global,
    components: &[TreeComponent],
    refinements: &[RefinementTables],
    place: usize,
    first: &mut FirstSite,
) -> Result<(), NoMemory>
    requires { IsSize refinements.now (instances (component_trees components.now)) }
    ensures { OnOk result (first.new ≡ noted (instances_past (component_trees components.now) place) first.old) }
{
    match components.get(place) {
        None => Ok(()),
        Some(component) => {
            let is_past = has_too_many(alloc, refinements, place)?;
            note_if(first, is_past, component.name.span.start);
            Ok(())
        }
    }
}

/// Notes the system, where it has too many instances.
fn note_system(
    alloc: Global,
    components: &[TreeComponent],
    refinements: &[RefinementTables],
    first: &mut FirstSite,
) -> Result<(), NoMemory>
    requires { IsSize refinements.now (instances (component_trees components.now)) }
    ensures { OnOk result (first.new ≡ noted (system_past (component_trees components.now)) first.old) }
{
    match system_of(components) {
        None => Ok(()),
        Some(place) => note_instances(alloc, components, refinements, place, first),
    }
}

/// The first fault of limits, with its offset in bytes, of a specification whose names have this directory. (So no
/// component contains itself.) Its only error is want of memory.
pub fn first_past_limit(
    alloc: Global,
    tree: &SpecTree,
    directory: &Directory,
) -> Result<Option<FaultSite>, NoMemory>
    requires { IsDirectoryOf (component_trees tree.now) directory.now }
    ensures { IfOk result (λ first. first ≡ first_of (limit_faults (component_trees tree.now))) }
{
    let components = tree.as_slice();
    let mut first = FirstSite::new();
    note_components(components, &mut first);
    note_system(
        alloc,
        components,
        directory.refinements.as_slice(),
        &mut first,
    )?;
    note_parts(components, &mut first);
    first_of_both();
    Ok(first.get())
}
