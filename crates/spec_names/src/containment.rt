//! Which components contain which through their subcomponents: ranks that fall along subcomponents, and the fault
//! where a component contains itself. Main functions: `containment_graph`, `note_containment`. A subcomponent of a
//! strongly connected component leads back to its own. It allocates the graph.

ghost use Rattle.std.specs.Prelude.{◌≡◌, ◌<◌, ◌≤◌, IfOk, map, flat_map, length};
ghost use Rattle.oss_syntax.specs.Trees.{component_trees};
ghost use Rattle.spec_names.specs.Containment.{inner_of, leads_by, leads_word, inner_faults};
ghost use Rattle.spec_names.specs.NamesFaults.{containment_from};
ghost use Rattle.spec_names.specs.Noting.{noted};

use crate::directory::refinement_items;
use crate::noting::note_unless;
use crate::refinements::RefinementTables;
use crate::table::PlaceTable;
use oss_base::{FaultKind, FirstSite};
use oss_syntax::{RefinementItem, TreeComponent};
use port_types::NoMemory;
use sqlite_items::Items;
use std::alloc::Global;

/// The places of the components that exist, of the subcomponents of a refinement.
fn inner_places(alloc: Global, tables: &RefinementTables) -> Result<Items<u32>, NoMemory>
    ensures { IfOk result (λ places. places ≡ inner_of tables.now) }
{
    let mut places = Vec::new(alloc);
    for component in &tables.components {
        if let Some(place) = component {
            places.push(*place)?;
        }
    }
    Ok(Items::from_vec(places))
}

/// For each component the places of the components of its subcomponents.
pub(crate) fn containment_graph(
    alloc: Global,
    refinements: &[RefinementTables],
) -> Result<Vec<Items<u32>>, NoMemory>
    ensures { IfOk result (λ graph. graph.items ≡ map inner_of refinements.now) }
{
    let mut graph = Vec::new(alloc);
    for tables in refinements {
        graph.push(inner_places(alloc, tables)?)?;
    }
    Ok(graph)
}

/// Whether the component of a name has the rank of the own component.
fn leads_back(names: &PlaceTable, ranks: &[usize], own: usize, name: &str) -> bool
    requires { own < length ranks.now }
    ensures { result ≡ leads_by names.now ranks.now own name.now }
{
    match names.find(name) {
        None => false,
        Some(place) => match ranks.get(place as usize) {
            None => false,
            Some(rank) => *rank == ranks[own],
        },
    }
}

/// Notes each subcomponent that leads back to the own component.
fn note_inner(
    names: &PlaceTable,
    ranks: &[usize],
    own: usize,
    items: &[RefinementItem],
    first: &mut FirstSite,
)
    requires { own < length ranks.now }
    ensures { first.new ≡ noted (flat_map (inner_faults names.now ranks.now own) items.now) first.old }
{
    for item in items {
        note_inner_item(names, ranks, own, item, first);
    }
}

fn note_inner_item(
    names: &PlaceTable,
    ranks: &[usize],
    own: usize,
    item: &RefinementItem,
    first: &mut FirstSite,
)
    requires { own < length ranks.now }
    ensures { first.new ≡ noted (inner_faults names.now ranks.now own item.now) first.old }
{
    match item {
        RefinementItem::Sub { component, .. } => {
            let leads = leads_back(names, ranks, own, component.text.as_str());
            note_unless(first, !leads, FaultKind::F11, component.span.start);
        }
        RefinementItem::Connection { .. } => {}
        RefinementItem::Contract { .. } => {}
    }
}

/// Notes each subcomponent of a component that contains itself by it.
pub(crate) fn note_containment(
    names: &PlaceTable,
    ranks: &[usize],
    components: &[TreeComponent],
    first: &mut FirstSite,
)
    requires { length components.now ≤ length ranks.now }
    ensures { first.new ≡ noted (containment_from (leads_word names.now ranks.now) 0 (component_trees components.now))
        first.old }
{
    for (own, component) in components.iter().enumerate() {
        note_inner(names, ranks, own, refinement_items(component), first);
    }
}
