//! What the names of an expression mean, by tables of names: `Scope::bare`, `Scope::dotted`. It touches
//! nothing outside.

ghost use Rattle.std.specs.Prelude.{◌≡◌, IfOk, map, option_map};
ghost use Rattle.spec_model.specs.Architecture.{target as target_by};
ghost use Rattle.spec_types.specs.TreeComponents.{free_number as free_number_by};
ghost use Rattle.spec_types.specs.Walks as walks;

use crate::ports::PortRead;
use oss_base::SubId;
use oss_syntax::Word;
use port_types::{NoMemory, PortId};
use spec_model::{FreeOrder, OwnPort, Target};
use spec_names::PlaceTable;
use sqlite_items::at;

/// The ports of an interface, the places of their names among them, and the number of the first one's type.
#[derive(Clone, Copy)]
pub struct PortScope<'a> {
    pub table: &'a PlaceTable,
    pub ports: &'a [OwnPort],
    pub first_type: u32,
}

/// What a refinement sees: the own ports and the place of their component among all, the places of the names of
/// subcomponents, for each subcomponent the place of its component, if that one exists, and the ports of all
/// components.
#[derive(Clone, Copy)]
pub struct RefinementScope<'a> {
    pub own: PortScope<'a>,
    pub place: usize,
    pub subs: &'a PlaceTable,
    pub components: &'a [Option<u32>],
    pub scopes: &'a [PortScope<'a>],
}

/// What the names of an expression mean: in a contract, or in a connection, where a port has its place in
/// the free order.
#[derive(Clone, Copy)]
pub enum Scope<'a, 'o> {
    Contract(PortScope<'a>),
    Connection(RefinementScope<'a>, &'o FreeOrder),
}

/// A port with its place among those of its interface, and the number of its type.
#[derive(Clone, Copy)]
pub struct FoundPort<'a> {
    pub place: u32,
    pub port: &'a OwnPort,
    pub type_number: u32,
}

/// The first port of this name.
pub(crate) fn find_port<'a>(scope: PortScope<'a>, name: &str) -> Option<FoundPort<'a>>
    ensures { option_map walks.found result ≡ walks.find_port (walks.interface scope.entry) name.now }
{
    match scope.table.find(name) {
        None => None,
        Some(place) => match at(scope.ports, place as usize) {
            None => None,
            Some(port) => Some(FoundPort {
                place,
                port,
                type_number: scope.first_type.wrapping_add(place),
            }),
        },
    }
}

/// A place as a number of 32 bits.
pub(crate) fn number(place: usize) -> Result<u32, NoMemory>
    ensures { IfOk result (λ number. number ≡ place) }
{
    match u32::try_from(place) {
        Ok(number) => Ok(number),
        Err(_) => Err(NoMemory),
    }
}

/// The place of a port in the free order, 0 where it is no free port.
fn free_place(order: &FreeOrder, target: &Target) -> usize
    ensures { result ≡ free_number_by order.now target.now }
{
    match order.place(target) {
        Some(place) => place,
        None => 0,
    }
}

fn free_number(order: &FreeOrder, sub: Option<SubId>, place: u32) -> Result<PortId, NoMemory>
    ensures { IfOk result (λ number. number.0 ≡ free_number_by order.now (target_by sub place)) }
{
    let target = Target {
        sub,
        port: PortId(place),
    };
    Ok(PortId(number(free_place(order, &target))?))
}

/// A port of an interface, read by its place.
fn own_port<'a>(found: Option<FoundPort<'a>>) -> Option<PortRead<'a>>
    ensures { option_map walks.port result ≡ walks.own_port_read (option_map walks.found found.entry) }
{
    match found {
        None => None,
        Some(found) => Some(PortRead {
            number: PortId(found.place),
            kind: &found.port.kind,
            type_number: found.type_number,
        }),
    }
}

/// Whether a port of this direction is wanted.
pub(crate) fn same_direction(input: bool, wanted: bool) -> bool
    ensures { result ≡ walks.same_direction input wanted }
{
    if input { wanted } else { !wanted }
}

/// A port of this direction, read by its place in the free order.
fn free_port<'a>(
    order: &FreeOrder,
    sub: Option<SubId>,
    input: bool,
    found: Option<FoundPort<'a>>,
) -> Result<Option<PortRead<'a>>, NoMemory>
    ensures { IfOk result (λ port. option_map walks.port port
        ≡ walks.free_port_read order.now sub input (option_map walks.found found.entry)) }
{
    match found {
        None => Ok(None),
        Some(found) => {
            if same_direction(found.port.input, input) {
                let number = free_number(order, sub, found.place)?;
                Ok(Some(PortRead {
                    number,
                    kind: &found.port.kind,
                    type_number: found.type_number,
                }))
            } else {
                Ok(None)
            }
        }
    }
}

/// The ports of the component of a subcomponent, if that one exists.
pub(crate) fn ports_of_sub<'a>(scope: &RefinementScope<'a>, sub: u32) -> Option<PortScope<'a>>
    ensures { option_map walks.interface result ≡ walks.sub_interface_by (walks.refinement scope.now) sub }
{
    match at(scope.components, sub as usize) {
        None => None,
        Some(component) => component_scope(scope.scopes, *component),
    }
}

/// The ports of a component that may be missing.
pub(crate) fn component_scope<'a>(
    scopes: &[PortScope<'a>],
    component: Option<u32>,
) -> Option<PortScope<'a>>
    ensures { option_map walks.interface result ≡ walks.component_ports (map walks.interface scopes.now) component }
{
    match component {
        None => None,
        Some(place) => match at(scopes, place as usize) {
            None => None,
            Some(ports) => Some(*ports),
        },
    }
}

/// The port of a subcomponent, and the subcomponent.
pub(crate) fn find_sub_port<'a>(
    scope: &RefinementScope<'a>,
    sub: &Word,
    port: &Word,
) -> Option<(u32, FoundPort<'a>)>
    ensures { option_map walks.found_sub result
        ≡ walks.find_sub_port (walks.refinement scope.now) sub.now.text port.now.text }
{
    match scope.subs.find(sub.text.as_str()) {
        None => None,
        Some(place) => match ports_of_sub(scope, place) {
            None => None,
            Some(ports) => match find_port(ports, port.text.as_str()) {
                None => None,
                Some(found) => Some((place, found)),
            },
        },
    }
}

impl<'a, 'o> Scope<'a, 'o> {
    /// The port that a bare name is.
    pub fn bare(&self, name: &Word) -> Result<Option<PortRead<'a>>, NoMemory>
        ensures { IfOk result (λ port. option_map walks.port port ≡ (walks.scope_reading self.now).bare name.now.text) }
    {
        match self {
            Scope::Contract(own) => Ok(own_port(find_port(*own, name.text.as_str()))),
            Scope::Connection(scope, order) => {
                let found = find_port(scope.own, name.text.as_str());
                free_port(order, None, true, found)
            }
        }
    }

    /// The port that `SUB.PORT` is.
    pub fn dotted(&self, sub: &Word, port: &Word) -> Result<Option<PortRead<'a>>, NoMemory>
        ensures { IfOk result (λ port_read. option_map walks.port port_read
            ≡ (walks.scope_reading self.now).dotted sub.now.text port.now.text) }
    {
        match self {
            Scope::Contract(_) => Ok(None),
            Scope::Connection(scope, order) => match find_sub_port(scope, sub, port) {
                None => Ok(None),
                Some((place, found)) => free_port(order, Some(SubId(place)), false, Some(found)),
            },
        }
    }
}
