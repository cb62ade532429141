//! The free ports of a component as they are printed: their names, the places of these, and their types. Main
//! functions: `free_names`, `free_port_table`. They touch memory alone.

ghost use Rattle.std.specs.Prelude.{◌≡◌, ◌++◌, map, IfOk, OnOk, string_bytes};
ghost use Rattle.spec_model.specs.declared.port.FreePort.{FreePort as Shown};
ghost use Rattle.replay.specs.FreePortNames.{port_prefix, free_names as names_of_free};
ghost use Rattle.spec_model.specs.FreeTypes.{free_types};
ghost use Rattle.replay.specs.Reading.{free_text, TellsPlaces};

use crate::places::PlacesByName;
use oss_base::{ComponentId, SubId};
use port_types::{Name, Names, NoMemory};
use spec_model::{FreePort, Spec};
use sqlite_items::at;
use std::alloc::Global;
use typed_ltl::Ports;

/// The free ports of a component: their names and types in their order, and the places of the names.
#[derive(Drop)]
pub struct FreePortTable {
    pub names: Names,
    pub kinds: Ports,
    pub places: PlacesByName,
}

/// Puts `s.` at the end of a text, for a port of a subcomponent.
fn append_prefix(
    text: &mut String,
    spec: &Spec,
    c: ComponentId,
    sub: Option<SubId>,
) -> Result<(), NoMemory>
    ensures { OnOk result (string_bytes text.new ≡ string_bytes text.old ++ port_prefix spec.now c sub) }
{
    match sub {
        None => Ok(()),
        Some(sub) => {
            if let Some(sub) = at(spec.subs_of(c), sub.0 as usize) {
                text.push_str(sub.name.as_str())?;
            }
            text.push_str(".")?;
            Ok(())
        }
    }
}

fn free_name(alloc: Global, spec: &Spec, c: ComponentId, free: &FreePort) -> Result<Name, NoMemory>
    ensures { IfOk result (λ name. name ≡ free_text spec.now c free.now) }
{
    let mut text = String::new(alloc);
    append_prefix(&mut text, spec, c, free.sub)?;
    text.push_str(free.name.as_str())?;
    Ok(Name::from_string(text))
}

#[tactic(auto, using(spec_model::proofs::Building::mapped_more))]
fn names_of(
    alloc: Global,
    spec: &Spec,
    c: ComponentId,
    free: &[FreePort],
) -> Result<Names, NoMemory>
    ensures { IfOk result (λ names. names ≡ map (free_text spec.now c) free.now) }
{
    let mut names = Names::new(alloc);
    for port in free {
        let name = free_name(alloc, spec, c, port)?;
        names.push(name)?;
    }
    Ok(names)
}

#[tactic(auto, using(spec_model::proofs::Building::mapped_more))]
fn kinds_of(alloc: Global, free: &[FreePort]) -> Result<Ports, NoMemory>
    ensures { IfOk result (λ kinds. kinds ≡ map (λ (port : Shown). port.kind) free.now) }
{
    let mut kinds = Ports::new(alloc);
    for port in free {
        let kind = port.kind.copy()?;
        kinds.push(kind)?;
    }
    Ok(kinds)
}

fn places_of(alloc: Global, names: &[Name]) -> Result<PlacesByName, NoMemory>
    ensures { IfOk result (λ places. TellsPlaces names.now places) }
{
    let mut places = PlacesByName::new(alloc);
    for (place, name) in names.iter().enumerate() {
        places.add(alloc, name.as_str().as_bytes(), place)?;
    }
    Ok(places)
}

/// The names of the free ports in their order: `p` for a port of the component itself, `s.p` for one of
/// a subcomponent.
pub fn free_names(alloc: Global, spec: &Spec, c: ComponentId) -> Result<Names, NoMemory>
    ensures { IfOk result (λ names. names ≡ names_of_free spec.now c) }
{
    let free = spec.free_ports(c)?;
    names_of(alloc, spec, c, free.as_slice())
}

/// The free ports of a component, ready to be looked up by name.
pub fn free_port_table(
    alloc: Global,
    spec: &Spec,
    c: ComponentId,
) -> Result<FreePortTable, NoMemory>
    ensures names { IfOk result (λ t. t.names ≡ names_of_free spec.now c) }
    ensures kinds { IfOk result (λ t. t.kinds ≡ free_types spec.now c) }
    ensures places { IfOk result (λ t. TellsPlaces t.names t.places) }
{
    let free = spec.free_ports(c)?;
    let names = names_of(alloc, spec, c, free.as_slice())?;
    let kinds = kinds_of(alloc, free.as_slice())?;
    let places = places_of(alloc, names.as_slice())?;
    Ok(FreePortTable {
        names,
        kinds,
        places,
    })
}
