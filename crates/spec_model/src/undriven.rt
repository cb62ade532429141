//! Which ports of a component no connection drives, told by the numbers of its ports and by the targets of
//! its connections alone: `undriven_targets`. It touches nothing outside.

ghost use Rattle.std.specs.Prelude.{◌≡◌, ◌++◌, ◌||◌, [], ◌∷◌, cond, filter, IfOk, OnOk};
ghost use Rattle.std.specs.List.{list_any};
ghost use Rattle.spec_model.specs.declared.wire.Target.{Target as Port};
ghost use Rattle.spec_model.specs.Architecture.{target, same_target};
ghost use Rattle.spec_model.specs.FreeRows as rows;
ghost use Rattle.spec_model.specs.TargetKeys as kept;

use crate::wire::Target;
use indexmap::IndexSet;
use oss_base::SubId;
use port_types::{NoMemory, PortId};
use std::alloc::Global;
use std::marker::Model;

/// Targets of connections, looked up by hash. Contracts see the list of their keys.
#[derive(Drop)]
pub struct TargetTable {
    keys: IndexSet<(u64, u64)>,
}

impl Model for TargetTable {
    ghost use Rattle.std.specs.Prelude.{List, ℕ};

    ghost Value = { List (ℕ × ℕ) };

    ghost view = { λ t. t.keys.keys };
}

/// A target as a pair of numbers: 0 for an own port, else one more than the subcomponent's place; and
/// the place of the port.
fn key(target: &Target) -> (u64, u64)
    ensures { result ≡ kept.key target.now }
{
    match target.sub {
        None => (0, target.port.0 as u64),
        Some(sub) => (sub.0 as u64 + 1, target.port.0 as u64),
    }
}

impl TargetTable {
    fn new(alloc: Global) -> TargetTable
        ensures { result ≡ [] }
    {
        TargetTable {
            keys: IndexSet::new(alloc),
        }
    }

    fn has(&self, target: &Target) -> bool
        ensures { result ≡ kept.has_key self.now target.now }
    {
        self.keys.contains(&key(target))
    }

    fn add(&mut self, target: &Target) -> Result<(), NoMemory>
        ensures { OnOk result ((t : Port) → kept.has_key self.new t
            ≡ (same_target t target.now || kept.has_key self.old t)) }
    {
        let _added = self.keys.insert(key(target))?;
        Ok(())
    }
}

/// The table of these targets.
#[tactic(auto, using(crate::proofs::FreeRows::table_more))]
fn table_of(alloc: Global, targets: &[Target]) -> Result<TargetTable, NoMemory>
    ensures { IfOk result (λ table. (t : Port) → kept.has_key table t ≡ list_any (same_target t) targets.now) }
{
    let mut table = TargetTable::new(alloc);
    for target in targets {
        table.add(target)?;
    }
    Ok(table)
}

/// A place as a number of 32 bits.
fn number(place: usize) -> Result<u32, NoMemory>
    ensures { IfOk result (λ number. number ≡ place) }
{
    match u32::try_from(place) {
        Ok(number) => Ok(number),
        Err(_) => Err(NoMemory),
    }
}

fn target_at(sub: Option<SubId>, place: usize) -> Result<Target, NoMemory>
    ensures { IfOk result (λ t. t ≡ target sub place) }
{
    let port = PortId(number(place)?);
    Ok(Target { sub, port })
}

/// Puts a port, where it is free.
fn put(free: &mut Vec<Target>, connected: &TargetTable, target: Target) -> Result<(), NoMemory>
    ensures { OnOk result (free.new.items ≡ free.old.items
        ++ cond (kept.lacks_key connected.now target) (target ∷ []) []) }
{
    if !connected.has(&target) {
        free.push(target)?;
    }
    Ok(())
}

/// Puts the free ones of the ports of the component itself, or of a subcomponent.
fn put_row(
    free: &mut Vec<Target>,
    connected: &TargetTable,
    sub: Option<SubId>,
    count: usize,
) -> Result<(), NoMemory>
    ensures { OnOk result (free.new.items ≡ free.old.items
        ++ filter (kept.lacks_key connected.now) (rows.row sub count)) }
{
    for place in 0..count {
        let target = target_at(sub, place)?;
        put(free, connected, target)?;
    }
    Ok(())
}

/// Puts the free ones of the ports of all subcomponents, of which these are the numbers of ports.
#[tactic(auto, using(crate::proofs::FreeRows::rows_more))]
fn put_rows(
    free: &mut Vec<Target>,
    connected: &TargetTable,
    counts: &[usize],
) -> Result<(), NoMemory>
    ensures { OnOk result (free.new.items ≡ free.old.items
        ++ filter (kept.lacks_key connected.now) (rows.rows 0 counts.now)) }
{
    for (place, count) in counts.iter().enumerate() {
        let sub = SubId(number(place)?);
        put_row(free, connected, Some(sub), *count)?;
    }
    Ok(())
}

/// The free ports in their order: those of a component with `own` ports, then those of its
/// subcomponents with these numbers of ports, without the targets of connections.
pub fn undriven_targets(
    alloc: Global,
    own: usize,
    counts: &[usize],
    connected: &[Target],
) -> Result<Vec<Target>, NoMemory>
    ensures { IfOk result (λ free. free.items ≡ rows.free_among own counts.now connected.now) }
{
    let connected = table_of(alloc, connected)?;
    let mut free = Vec::new(alloc);
    put_row(&mut free, &connected, None, own)?;
    put_rows(&mut free, &connected, counts)?;
    Ok(free)
}
