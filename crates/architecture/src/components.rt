//! From typed ports, contracts and connections to the components of a specification: `components_of`. It touches
//! memory alone.

ghost use Rattle.std.specs.Prelude.{◌≡◌, ◌++◌, [], IfOk, OnOk, filter_map};
ghost use Rattle.std.specs.List.{cons_option};
ghost use Rattle.architecture.specs.Assembling as making;
ghost use Rattle.architecture.specs.Standing.{place_or_first};
ghost use Rattle.oss_syntax.specs.Trees.{component_tree};
ghost use Rattle.spec_names.specs.Scopes.{refinement_parts};
ghost use Rattle.spec_names.specs.Tables.{entry_place};

use oss_base::ComponentId;
use oss_syntax::{RefinementItem, TreeComponent};
use port_types::NoMemory;
use spec_model::{Component, Components, Contracts, OwnPorts, Sub, Subs, Wires};
use spec_names::{PlaceTable, refinement_items};
use spec_types::TypedComponents;
use std::alloc::Global;

/// The place of a name, the first place where there is none.
fn place_of_name(names: &PlaceTable, name: &str) -> u32
    ensures { result ≡ place_or_first (entry_place names.now name.now) }
{
    names.find(name).unwrap_or(0)
}

/// Puts the subcomponent that an item declares, if it does.
fn put_sub(subs: &mut Subs, names: &PlaceTable, item: &RefinementItem) -> Result<(), NoMemory>
    ensures { OnOk result (subs.new ≡ subs.old ++ cons_option (making.sub_in names.now item.now) []) }
{
    match item {
        RefinementItem::Sub { name, component } => {
            let place = place_of_name(names, component.text.as_str());
            subs.push(Sub {
                name: name.text.copy()?,
                component: ComponentId(place),
            })?;
            Ok(())
        }
        RefinementItem::Connection { .. } => Ok(()),
        RefinementItem::Contract { .. } => Ok(()),
    }
}

/// The subcomponents that these items declare.
fn subs_in(alloc: Global, names: &PlaceTable, items: &[RefinementItem]) -> Result<Subs, NoMemory>
    ensures { IfOk result (λ subs. subs ≡ filter_map (making.sub_in names.now) items.now) }
{
    let mut subs = Subs::new(alloc);
    for item in items {
        put_sub(&mut subs, names, item)?;
    }
    Ok(subs)
}

/// The subcomponents of a component.
fn subs_of(alloc: Global, names: &PlaceTable, component: &TreeComponent) -> Result<Subs, NoMemory>
    ensures { IfOk result (λ subs. subs
        ≡ filter_map (making.sub_by names.now) (refinement_parts (component_tree component.now))) }
{
    let subs = subs_in(alloc, names, refinement_items(component))?;
    Ok(subs)
}

/// A component with these ports, contracts and connections.
fn component_of(
    alloc: Global,
    names: &PlaceTable,
    component: &TreeComponent,
    ports: OwnPorts,
    contracts: Contracts,
    wires: Wires,
) -> Result<Component, NoMemory>
    ensures { IfOk result (λ made. made ≡ making.component_by names.now component.now ports contracts wires) }
{
    let name = component.name.text.copy()?;
    let subs = subs_of(alloc, names, component)?;
    Ok(Component {
        name,
        ports,
        contracts,
        subs,
        wires,
    })
}

/// The components of a specification, where `names` tells the place of the first component of each name.
pub(crate) fn components_of(
    alloc: Global,
    names: &PlaceTable,
    components: &[TreeComponent],
    typed: TypedComponents,
) -> Result<Components, NoMemory>
    ensures { IfOk result (λ made. made
        ≡ making.components_by names.now components.now typed.ports typed.contracts typed.wires) }
{
    let mut made = Components::new(alloc);
    let interfaces = typed
        .ports
        .into_vec()
        .into_iter()
        .zip(typed.contracts.into_vec());
    let parts = interfaces.zip(typed.wires.into_vec());
    for (component, ((ports, contracts), wires)) in components.iter().zip(parts) {
        made.push(component_of(alloc, names, component, ports, contracts, wires)?)?;
    }
    Ok(made)
}
