//! The free ports of a component, as they are shown: `Spec::free_ports`, or as a table: `Spec::free_order`. It
//! touches nothing outside.

ghost use Rattle.std.specs.Prelude.{◌≡◌, ◌++◌, [], map, length, filter_map, IfOk, OnOk};
ghost use Rattle.std.specs.List.{cons_option};
ghost use Rattle.std.specs.Option.{option_copied};
ghost use Rattle.spec_model.specs.declared.sub.Sub.{Sub as Instance};
ghost use Rattle.spec_model.specs.declared.wire.Wire.{Wire as Connection};
ghost use Rattle.spec_model.specs.Architecture as specs;
ghost use Rattle.spec_model.specs.TargetKeys.{shown_port};

use crate::free_order::FreeOrder;
use crate::lists::FreePorts;
use crate::port::{FreePort, OwnPort};
use crate::spec::Spec;
use crate::sub::Sub;
use crate::undriven::undriven_targets;
use crate::wire::{Target, Wire};
use oss_base::ComponentId;
use port_types::NoMemory;
use sqlite_items::at;
use std::alloc::Global;

fn port_at<'a>(spec: &'a Spec, c: ComponentId, target: &Target) -> Option<&'a OwnPort>
    ensures { option_copied result ≡ specs.port_at spec.now c target.now }
{
    at(spec.ports_at(c, target.sub), target.port.0 as usize)
}

/// How many ports each subcomponent has.
#[tactic(auto, using(crate::proofs::Building::mapped_more))]
fn port_counts(alloc: Global, spec: &Spec, subs: &[Sub]) -> Result<Vec<usize>, NoMemory>
    ensures { IfOk result (λ counts. counts.items
        ≡ map (λ (s : Instance). length (specs.ports_of spec.now s.component)) subs.now) }
{
    let mut counts = Vec::new(alloc);
    for sub in subs {
        counts.push(spec.ports_of(sub.component).len())?;
    }
    Ok(counts)
}

#[tactic(auto, using(crate::proofs::Building::mapped_more))]
fn targets_of(alloc: Global, wires: &[Wire]) -> Result<Vec<Target>, NoMemory>
    ensures { IfOk result (λ targets. targets.items ≡ map (λ (w : Connection). w.target) wires.now) }
{
    let mut targets = Vec::new(alloc);
    for wire in wires {
        targets.push(wire.target)?;
    }
    Ok(targets)
}

/// The free ports of a component, in their order.
fn free_targets(alloc: Global, spec: &Spec, c: ComponentId) -> Result<Vec<Target>, NoMemory>
    ensures { IfOk result (λ free. free.items ≡ specs.free_targets spec.now c) }
{
    let counts = port_counts(alloc, spec, spec.subs_of(c))?;
    let targets = targets_of(alloc, spec.wires_of(c))?;
    let own = spec.ports_of(c).len();
    undriven_targets(alloc, own, counts.as_slice(), targets.as_slice())
}

/// Puts a port as it is shown, if it is there.
fn put_port(
    alloc: Global,
    free: &mut FreePorts,
    spec: &Spec,
    c: ComponentId,
    target: &Target,
) -> Result<(), NoMemory>
    ensures { OnOk result (free.new ≡ free.old ++ cons_option (shown_port spec.now c target.now) []) }
{
    match port_at(spec, c, target) {
        Some(port) => {
            let name = port.name.copy()?;
            let kind = port.kind.copy()?;
            free.push(FreePort {
                sub: target.sub,
                name,
                kind,
            })
        }
        None => Ok(()),
    }
}

fn shown(
    alloc: Global,
    spec: &Spec,
    c: ComponentId,
    targets: &[Target],
) -> Result<FreePorts, NoMemory>
    ensures { IfOk result (λ free. free ≡ filter_map (shown_port spec.now c) targets.now) }
{
    let mut free = FreePorts::new(alloc);
    for target in targets {
        put_port(alloc, &mut free, spec, c, target)?;
    }
    Ok(free)
}

impl Spec {
    /// The free ports of a component in the free order: of its own ports and then of those of its
    /// subcomponents, the ones that no connection drives.
    pub fn free_ports(&self, c: ComponentId) -> Result<FreePorts, NoMemory>
        ensures { IfOk result (λ free. specs.AreFreePorts self.now c (specs.free_targets self.now c) free) }
    {
        let alloc = self.components.allocator();
        let targets = free_targets(alloc, self, c)?;
        shown(alloc, self, c, targets.as_slice())
    }

    /// The free order of a component, as a table. In linear time in the numbers of its subcomponents and
    /// connections, not in that of their ports.
    pub fn free_order(&self, c: ComponentId) -> Result<FreeOrder, NoMemory>
        ensures { IfOk result (λ order. order ≡ specs.free_targets self.now c) }
    {
        let alloc = self.components.allocator();
        let counts = port_counts(alloc, self, self.subs_of(c))?;
        let targets = targets_of(alloc, self.wires_of(c))?;
        FreeOrder::new(alloc, self.ports_of(c).len(), counts, targets.as_slice())
    }
}
