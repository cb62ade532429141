//! The names of a specification as a whole: its first fault of names, or the directory of its names. Main function:
//! `names_of`. The tables of all names are made once and handed on. It touches memory alone.

ghost use Rattle.std.specs.Prelude.{◌≡◌, ◌<◌, Some, IfOk, OnOk, map, flat_map, length, slice_get};
ghost use Rattle.oss_syntax.specs.Trees.{component_tree, component_trees, refinement_item_tree};
ghost use Rattle.spec_names.specs.Directory.{AnswersNames, AreInterfaces};
ghost use Rattle.spec_names.specs.Enumerators.{Indexes};
ghost use Rattle.spec_names.specs.Noting.{noted};
ghost use Rattle.spec_names.specs.Scopes.{refinement_parts};
ghost use Rattle.spec_names.specs.Tables.{IsPlaceTable};
ghost use Rattle.spec_names.specs.Whole.{names_in, faults_of_interface, AreRefinementsNoted};

use crate::components::component_table;
use crate::containment::{containment_graph, note_containment};
use crate::enumerators::{EnumeratorIndex, enumerator_index};
use crate::interfaces::{InterfaceTables, interface_tables};
use crate::refinements::RefinementTables;
use crate::subcomponents::refinement_tables;
use crate::table::PlaceTable;
use oss_base::{FaultSite, FirstSite, first_is_least, first_of_both};
use oss_syntax::{RefinementItem, SpecTree, TreeComponent};
use port_types::NoMemory;
use std::alloc::Global;
use strong_components::ranks_of;

/// The names of a specification without a fault of names: its components by their places, for each component, in
/// order, the names of its interface and of its refinement, and a rank that falls along subcomponents.
#[derive(Drop)]
pub struct Directory {
    pub components: PlaceTable,
    pub interfaces: Vec<InterfaceTables>,
    pub refinements: Vec<RefinementTables>,
    pub ranks: Vec<usize>,
}

/// What the names of a specification give.
#[derive(Drop)]
pub enum Names {
    Fault(FaultSite),
    Directory(Directory),
}

/// The items of a component's refinement: none where it has no refinement.
pub fn refinement_items(component: &TreeComponent) -> &[RefinementItem]
    ensures { map refinement_item_tree result.now ≡ refinement_parts (component_tree component.now) }
{
    match &component.refinement {
        Some(items) => items.as_slice(),
        None => &[],
    }
}

/// The names of all interfaces, with their faults noted.
fn all_interfaces(
    alloc: Global,
    components: &[TreeComponent],
    first: &mut FirstSite,
) -> Result<Vec<InterfaceTables>, NoMemory>
    ensures interfaces { IfOk result (λ all. AreInterfaces (component_trees components.now) all.items) }
    ensures noted { OnOk result (first.new ≡ noted (flat_map faults_of_interface components.now) first.old) }
{
    let mut all = Vec::new(alloc);
    for component in components {
        let tables = interface_tables(alloc, component.interface.as_slice(), first)?;
        all.push(tables)?;
    }
    Ok(all)
}

/// The names of the interface of the component at a place.
fn interface_at(interfaces: &[InterfaceTables], place: usize) -> &InterfaceTables
    requires { place < length interfaces.now }
    ensures { slice_get interfaces.now place ≡ Some result.now }
{
    &interfaces[place]
}

/// The names of all refinements, with their faults noted.
fn all_refinements(
    alloc: Global,
    components: &[TreeComponent],
    names: &PlaceTable,
    interfaces: &[InterfaceTables],
    index: &EnumeratorIndex,
    first: &mut FirstSite,
) -> Result<Vec<RefinementTables>, NoMemory>
    requires names { IsPlaceTable (names_in (component_trees components.now)) names.now }
    requires interfaces { AreInterfaces (component_trees components.now) interfaces.now }
    requires index { Indexes interfaces.now index.now }
    ensures { IfOk result (λ all. AreRefinementsNoted (component_trees components.now) all.items first.old first.new) }
{
    let mut all = Vec::new(alloc);
    for (place, component) in components.iter().enumerate() {
        let items = refinement_items(component);
        let own = interface_at(interfaces, place);
        let tables = refinement_tables(alloc, names, interfaces, own, index, items, first)?;
        all.push(tables)?;
    }
    Ok(all)
}

/// The names of a specification whose text has `end` bytes: its first fault of names, with its offset in bytes, or
/// the directory of them. Its only error is want of memory, which it answers too where there are 2^32 or more names
/// of one kind, as places are 32 bits wide.
pub fn names_of(alloc: Global, end: u32, tree: &SpecTree) -> Result<Names, NoMemory>
    ensures { IfOk result (AnswersNames end (component_trees tree.now)) }
{
    let components = tree.as_slice();
    let mut first = FirstSite::new();
    let names = component_table(alloc, end, components, &mut first)?;
    let interfaces = all_interfaces(alloc, components, &mut first)?;
    let index = enumerator_index(alloc, components)?;
    let refinements = all_refinements(
        alloc,
        components,
        &names,
        interfaces.as_slice(),
        &index,
        &mut first,
    )?;
    let graph = containment_graph(alloc, refinements.as_slice())?;
    let ranks = ranks_of(alloc, graph.as_slice())?;
    note_containment(&names, ranks.as_slice(), components, &mut first);
    first_of_both();
    first_is_least();
    match first.get() {
        Some(site) => Ok(Names::Fault(site)),
        None => Ok(Names::Directory(Directory {
            components: names,
            interfaces,
            refinements,
            ranks,
        })),
    }
}
