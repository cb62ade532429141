//! The components of a text with typed expressions: `typed_components`. It touches nothing outside.

ghost use Rattle.std.specs.Prelude.{◌≡◌, ◌++◌, [], map, filter_map, option_map, slice_get, IfOk, OnOk};
ghost use Rattle.spec_model.specs.Meanings as meanings;
ghost use Rattle.std.specs.List.{cons_option, flat_map, zip, All};
ghost use Rattle.std.specs.Option.{option_copied, option_map_or};
ghost use Rattle.oss_syntax.specs.Trees.{component_trees};
ghost use Rattle.spec_names.specs.Directory.{IsDirectoryOf};
ghost use Rattle.spec_names.specs.Noting.{noted};
ghost use Rattle.spec_types.specs.TreeComponents as specs;
ghost use Rattle.spec_types.specs.Walks as walks;
ghost use Rattle.spec_types.specs.Tables as facts;
ghost use Rattle.spec_types.specs.Fitting as fitting;

use crate::connections::{targets_of, wires_of};
use crate::contracts::contracts_of;
use crate::declarations::own_ports;
use crate::enumerations::Sightings;
use crate::known_fits::KnownFits;
use crate::scope::{PortScope, RefinementScope, Scope, component_scope};
use oss_base::{FaultSite, FirstSite, first_is_least, first_of_both};
use oss_syntax::{RefinementItem, TreeComponent};
use port_types::{ListOf, NoMemory};
use spec_model::{Contracts, FreeOrder, OwnPorts, Wires};
use spec_names::{Directory, InterfaceTables, RefinementTables};
use sqlite_items::at;
use std::alloc::Global;

/// The ports of a component.
fn component_ports(
    alloc: Global,
    component: &TreeComponent,
    first: &mut FirstSite,
) -> Result<OwnPorts, NoMemory>
    ensures ports { IfOk result (λ ports. ports ≡ facts.ports_in component.now) }
    ensures first { OnOk result (first.new ≡ noted (facts.range_faults_of component.now) first.old) }
{
    own_ports(alloc, component.interface.as_slice(), first)
}

/// The ports of each component.
fn all_ports(
    alloc: Global,
    components: &[TreeComponent],
    first: &mut FirstSite,
) -> Result<Vec<OwnPorts>, NoMemory>
    ensures ports { IfOk result (λ ports. ports.items ≡ map facts.ports_in components.now) }
    ensures first { OnOk result (first.new ≡ noted (flat_map facts.range_faults_of components.now) first.old) }
{
    let mut ports = Vec::new(alloc);
    for component in components {
        let made = component_ports(alloc, component, first)?;
        ports.push(made)?;
    }
    Ok(ports)
}

/// Puts the ports of one more component with the table of their places, if both are there.
fn put_scope<'a>(
    scopes: &mut Vec<PortScope<'a>>,
    tables: Option<&'a InterfaceTables>,
    ports: Option<&'a OwnPorts>,
    first_type: u32,
) -> Result<(), NoMemory>
    ensures { OnOk result (map walks.interface scopes.new.items ≡ map walks.interface scopes.old.items
        ++ cons_option (option_map facts.interface_by (facts.both (option_copied tables.entry)
        (option_copied ports.entry))) []) }
{
    match tables {
        None => Ok(()),
        Some(tables) => match ports {
            None => Ok(()),
            Some(ports) => {
                scopes.push(PortScope {
                    table: &tables.ports,
                    ports: ports.as_slice(),
                    first_type,
                })?;
                Ok(())
            }
        },
    }
}

/// The number of the first type after those of these ports.
fn next_type(first_type: u32, ports: Option<&OwnPorts>) -> Result<u32, NoMemory> {
    match ports {
        None => Ok(first_type),
        Some(ports) => match u32::try_from(ports.len()) {
            Ok(count) => first_type.checked_add(count).ok_or(NoMemory),
            Err(_) => Err(NoMemory),
        },
    }
}

/// The ports of all components, each with the table of their places. Their types are numbered in this order.
fn all_scopes<'a>(
    alloc: Global,
    interfaces: &'a [InterfaceTables],
    ports: &'a [OwnPorts],
) -> Result<Vec<PortScope<'a>>, NoMemory>
    ensures { IfOk result (λ scopes. map walks.interface scopes.items
        ≡ map facts.interface_by (zip interfaces.now ports.now)) }
{
    let mut scopes = Vec::new(alloc);
    let mut first_type = 0;
    for place in 0..interfaces.len() {
        let tables = at(interfaces, place);
        let own = at(ports, place);
        put_scope(&mut scopes, tables, own, first_type)?;
        first_type = next_type(first_type, own)?;
    }
    Ok(scopes)
}

/// Puts the contracts of one more component, if it is there with its ports.
fn put_contracts<'a>(
    alloc: Global,
    sightings: &mut Sightings,
    contracts: &mut Vec<Contracts>,
    component: Option<&'a TreeComponent>,
    ports: Option<&PortScope<'a>>,
    first: &mut FirstSite,
) -> Result<(), NoMemory>
    ensures contracts { OnOk result (map facts.contract_meanings contracts.new.items
        ≡ map facts.contract_meanings contracts.old.items
        ++ cons_option (option_map facts.contracts_by (facts.both (option_copied component.entry)
        (option_map walks.interface (option_copied ports.entry)))) []) }
    ensures first { OnOk result (first.new ≡ noted (option_map_or facts.contract_faults_by
        (facts.both (option_copied component.entry)
        (option_map walks.interface (option_copied ports.entry))) []) first.old) }
{
    match component {
        None => Ok(()),
        Some(component) => match ports {
            None => Ok(()),
            Some(ports) => {
                let scope = Scope::Contract(*ports);
                let items = component.interface.as_slice();
                contracts.push(contracts_of(alloc, sightings, &scope, items, first)?)?;
                Ok(())
            }
        },
    }
}

/// The contracts of each component.
fn all_contracts<'a>(
    alloc: Global,
    sightings: &mut Sightings,
    components: &'a [TreeComponent],
    scopes: &[PortScope<'a>],
    first: &mut FirstSite,
) -> Result<Vec<Contracts>, NoMemory>
    ensures contracts { IfOk result (λ made. map facts.contract_meanings made.items
        ≡ map facts.contracts_by (zip components.now (map walks.interface scopes.now))) }
    ensures first { OnOk result (first.new
        ≡ noted (flat_map facts.contract_faults_by (zip components.now (map walks.interface scopes.now))) first.old) }
{
    let mut contracts = Vec::new(alloc);
    for place in 0..components.len() {
        let component = at(components, place);
        let own = at(scopes, place);
        put_contracts(alloc, sightings, &mut contracts, component, own, first)?;
    }
    Ok(contracts)
}

/// How many ports a component has, none where it is missing.
fn port_count(scopes: &[PortScope], component: Option<u32>) -> usize
    ensures { result ≡ facts.scope_port_count (map walks.interface scopes.now) component }
{
    match component_scope(scopes, component) {
        Some(scope) => scope.ports.len(),
        None => 0,
    }
}

/// How many ports each subcomponent has.
#[tactic(auto, using(crate::proofs::Making::mapped_more))]
fn port_counts(
    alloc: Global,
    scopes: &[PortScope],
    components: &[Option<u32>],
) -> Result<Vec<usize>, NoMemory>
    ensures { IfOk result (λ counts. counts.items ≡ map (facts.scope_port_count
        (map walks.interface scopes.now)) components.now) }
{
    let mut counts = Vec::new(alloc);
    for component in components {
        counts.push(port_count(scopes, *component))?;
    }
    Ok(counts)
}

/// The connections of a refinement.
fn refinement_wires<'a>(
    alloc: Global,
    sightings: &mut Sightings,
    known: &mut KnownFits,
    scope: &RefinementScope<'a>,
    items: &'a [RefinementItem],
    first: &mut FirstSite,
) -> Result<Wires, NoMemory>
    requires { fitting.KnowsFits scope.now known.old.kept.items }
    ensures known { OnOk result (fitting.KnowsFits scope.now known.new.kept.items) }
    ensures wires { IfOk result (λ made. map meanings.wire_meaning made
        ≡ facts.wires_by (walks.refinement scope.now) items.now) }
    ensures first { OnOk result (first.new ≡ noted (facts.wire_faults_in
        (walks.refinement scope.now) items.now) first.old) }
{
    let targets = targets_of(alloc, scope, items)?;
    let counts = port_counts(alloc, scope.scopes, scope.components)?;
    let order = FreeOrder::new(alloc, scope.own.ports.len(), counts, targets.as_slice())?;
    wires_of(alloc, sightings, known, scope, &order, items, first)
}

/// The connections of a component, none where it has no refinement.
fn component_wires<'a>(
    alloc: Global,
    sightings: &mut Sightings,
    known: &mut KnownFits,
    component: &'a TreeComponent,
    scope: &RefinementScope<'a>,
    first: &mut FirstSite,
) -> Result<Wires, NoMemory>
    requires { fitting.KnowsFits scope.now known.old.kept.items }
    ensures known { OnOk result (fitting.KnowsFits scope.now known.new.kept.items) }
    ensures wires { IfOk result (λ made. map meanings.wire_meaning made
        ≡ facts.wires_in component.now (walks.refinement scope.now)) }
    ensures first { OnOk result (first.new ≡ noted (facts.wire_faults_of component.now
        (walks.refinement scope.now)) first.old) }
{
    match &component.refinement {
        None => Ok(Wires::new(alloc)),
        Some(items) => { refinement_wires(alloc, sightings, known, scope, items.as_slice(), first) }
    }
}

/// Puts the connections of one more component, if it is there with its ports and the names of its refinement.
fn put_wires<'a>(
    alloc: Global,
    sightings: &mut Sightings,
    known: &mut KnownFits,
    wires: &mut Vec<Wires>,
    component: Option<&'a TreeComponent>,
    place: usize,
    own: Option<&PortScope<'a>>,
    tables: Option<&'a RefinementTables>,
    scopes: &'a [PortScope<'a>],
    first: &mut FirstSite,
) -> Result<(), NoMemory>
    requires own { option_map walks.interface (option_copied own) ≡ slice_get (map walks.interface scopes.now) place }
    requires known { All (fitting.IsFitting (map walks.interface scopes.now)) known.old.kept.items }
    ensures known { OnOk result (All (fitting.IsFitting (map walks.interface scopes.now)) known.new.kept.items) }
    ensures wires { OnOk result (map facts.wire_meanings wires.new.items ≡ map facts.wire_meanings wires.old.items
        ++ cons_option (option_map (facts.wires_of_pair (map walks.interface scopes.now)) (facts.both (facts.both
        (option_copied component.entry)
        (option_map walks.interface (option_copied own.entry))) (option_copied tables.entry))) []) }
    ensures first { OnOk result (first.new ≡ noted (option_map_or (facts.wire_faults_of_pair
        (map walks.interface scopes.now)) (facts.both
        (facts.both (option_copied component.entry) (option_map walks.interface (option_copied own.entry)))
        (option_copied tables.entry)) []) first.old) }
{
    match component {
        None => Ok(()),
        Some(component) => match own {
            None => Ok(()),
            Some(own) => match tables {
                None => Ok(()),
                Some(tables) => {
                    let scope = RefinementScope {
                        own: *own,
                        place,
                        subs: &tables.subs,
                        components: tables.components.as_slice(),
                        scopes,
                    };
                    let made = component_wires(alloc, sightings, known, component, &scope, first)?;
                    wires.push(made)?;
                    Ok(())
                }
            },
        },
    }
}

/// The connections of each component.
fn all_wires<'a>(
    alloc: Global,
    sightings: &mut Sightings,
    components: &'a [TreeComponent],
    scopes: &'a [PortScope<'a>],
    refinements: &'a [RefinementTables],
    first: &mut FirstSite,
) -> Result<Vec<Wires>, NoMemory>
    ensures wires { IfOk result (λ made. map facts.wire_meanings made.items
        ≡ map (facts.wires_of_pair (map walks.interface scopes.now))
        (zip (zip components.now (map walks.interface scopes.now)) refinements.now)) }
    ensures first { OnOk result (first.new ≡ noted (flat_map (facts.wire_faults_of_pair
        (map walks.interface scopes.now))
        (zip (zip components.now (map walks.interface scopes.now)) refinements.now)) first.old) }
{
    let mut wires = Vec::new(alloc);
    let mut known = KnownFits::new(alloc);
    for place in 0..components.len() {
        let component = at(components, place);
        let own = at(scopes, place);
        let tables = at(refinements, place);
        put_wires(
            alloc, sightings, &mut known, &mut wires, component, place, own, tables, scopes, first,
        )?;
    }
    Ok(wires)
}

/// What the components of a text stand for: for each component its ports, its contracts and its connections.
#[derive(Drop)]
pub struct TypedComponents {
    pub ports: ListOf<OwnPorts>,
    pub contracts: ListOf<Contracts>,
    pub wires: ListOf<Wires>,
}

/// What the components of a text stand for, or the first fault of their types.
#[derive(Drop)]
pub enum Types {
    Fault(FaultSite),
    Typed(TypedComponents),
}

/// What the components of a text stand for. Type faults are noted.
fn typed_by_tables(
    alloc: Global,
    components: &[TreeComponent],
    directory: &Directory,
    first: &mut FirstSite,
) -> Result<TypedComponents, NoMemory>
    requires { IsDirectoryOf (component_trees components.now) directory.now }
    ensures typed { IfOk result (specs.AreTyped (component_trees components.now)) }
    ensures first { OnOk result (first.new ≡ noted (specs.types_faults (component_trees components.now)) first.old) }
{
    let ports = all_ports(alloc, components, first)?;
    let interfaces = directory.interfaces.as_slice();
    let own = ports.as_slice();
    let scopes = all_scopes(alloc, interfaces, own)?;
    let all = scopes.as_slice();
    let refinements = directory.refinements.as_slice();
    let mut sightings = Sightings::new(alloc);
    let contracts = all_contracts(alloc, &mut sightings, components, all, first)?;
    let wires = all_wires(alloc, &mut sightings, components, all, refinements, first)?;
    drop(scopes);
    let port_lists = ListOf::from_vec(ports);
    let contract_lists = ListOf::from_vec(contracts);
    let wire_lists = ListOf::from_vec(wires);
    Ok(TypedComponents {
        ports: port_lists,
        contracts: contract_lists,
        wires: wire_lists,
    })
}

/// What the components of a text without a fault of names stand for, or the first fault of their types.
pub fn typed_components(
    alloc: Global,
    components: &[TreeComponent],
    directory: &Directory,
) -> Result<Types, NoMemory>
    requires { IsDirectoryOf (component_trees components.now) directory.now }
    ensures { IfOk result (specs.AnswersTypes (component_trees components.now)) }
{
    let mut first = FirstSite::new();
    let typed = typed_by_tables(alloc, components, directory, &mut first)?;
    // Two laws, of which no code runs: what was noted is the first of the list, and only the empty list has none.
    first_of_both();
    first_is_least();
    match first.get() {
        Some(site) => Ok(Types::Fault(site)),
        None => Ok(Types::Typed(typed)),
    }
}
