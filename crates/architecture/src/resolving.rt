//! The first fault of a tree, or the specification that it stands for: `resolve`. It touches memory alone.

ghost use Rattle.std.specs.Prelude.{◌≡◌, [], length, None, IfOk, IfErr, position, unwrap_or};
ghost use Rattle.architecture.specs.Assembling as making;
ghost use Rattle.architecture.specs.FirstFaults.{tree_site, Refuses};
ghost use Rattle.architecture.specs.Standing.{Stands};
ghost use Rattle.oss_syntax.specs.Trees.{component_trees};
ghost use Rattle.spec_names.specs.Directory.{IsDirectoryOf};
ghost use Rattle.spec_names.specs.NamesFaults.{names_faults};
ghost use Rattle.spec_types.specs.TreeComponents.{AreTyped};

use crate::components::components_of;
use crate::items::items_of;
use crate::numbers::number;
use crate::text_places::Cursor;
use oss_base::{ComponentId, Fault, FaultSite, Stop};
use oss_syntax::{SpecTree, TreeComponent};
use port_types::NoMemory;
use spec_limits::first_past_limit;
use spec_model::Spec;
use spec_names::{Directory, Names, names_of};
use spec_types::{TypedComponents, Types, typed_components};
use std::alloc::Global;

/// The fault of a site.
fn refusal(bytes: &[u8], site: FaultSite) -> Stop
    ensures { making.RefusesAt bytes.now site result }
{
    match Cursor::new(bytes).to(bytes, site.offset as usize) {
        Ok(cursor) => Stop::Fault(Fault {
            kind: site.kind,
            place: cursor.place,
        }),
        Err(_) => Stop::NoMemory,
    }
}

/// The place of the first component that is the system.
fn find_system(components: &[TreeComponent]) -> Option<usize>
    ensures { result ≡ position making.has_system components.now }
{
    components
        .iter()
        .position(|component| component.system.is_some())
}

/// The same, the first place where there is none.
fn system_of(components: &[TreeComponent]) -> usize
    ensures { result ≡ unwrap_or (position making.has_system components.now) 0 }
{
    find_system(components).unwrap_or(0)
}

/// The specification that a tree stands for, which has no fault of names.
fn assemble(
    alloc: Global,
    bytes: &[u8],
    components: &[TreeComponent],
    directory: &Directory,
    typed: TypedComponents,
) -> Result<Spec, NoMemory>
    requires names { names_faults (length bytes.now) (component_trees components.now) ≡ [] }
    requires directory { IsDirectoryOf (component_trees components.now) directory.now }
    requires typed { AreTyped (component_trees components.now) typed }
    ensures { IfOk result (λ spec. Stands bytes.now (component_trees components.now) spec) }
{
    let items = items_of(alloc, bytes, components, directory)?;
    let system = number(system_of(components))?;
    let components = components_of(alloc, &directory.components, components, typed)?;
    Ok(Spec {
        components,
        items,
        system: ComponentId(system),
    })
}

/// The specification that a tree stands for, in a text of these bytes, or the first fault of its names, types and
/// limits. Bytes and tree are those of one text, else the places of faults and of refined contracts mean nothing.
/// A text of 4 GiB or more answers want of memory.
pub fn resolve(alloc: Global, bytes: &[u8], tree: &SpecTree) -> Result<Spec, Stop>
    ensures spec { IfOk result (λ spec. (tree_site (length bytes.now) (component_trees tree.now) ≡ None)
        × Stands bytes.now (component_trees tree.now) spec) }
    ensures refused { IfErr result (Refuses bytes.now (component_trees tree.now)) }
{
    let end = number(bytes.len())?;
    let directory = match names_of(alloc, end, tree)? {
        Names::Fault(site) => return Err(refusal(bytes, site)),
        Names::Directory(directory) => directory,
    };
    let components = tree.as_slice();
    let typed = match typed_components(alloc, components, &directory)? {
        Types::Fault(site) => return Err(refusal(bytes, site)),
        Types::Typed(typed) => typed,
    };
    match first_past_limit(alloc, tree, &directory)? {
        Some(site) => Err(refusal(bytes, site)),
        None => Ok(assemble(alloc, bytes, components, &directory, typed)?),
    }
}
