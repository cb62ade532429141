//! The levels of a specification, or the first one that is too large: `levels`. May touch the allocator.

ghost use Rattle.std.specs.Prelude.{◌≡◌, ◌≤◌, ◌++◌, ◌∷◌, true, false, List, [], Some, None, IfOk, OnOk};
ghost use Rattle.std.specs.Prelude.{nat_lt, slice_get};
ghost use Rattle.std.specs.List.{flat_map};
ghost use Rattle.oss_base.specs.Faults.{IfFault};
ghost use Rattle.oss_base.specs.Limits.{most_closure_members, most_level_size};
ghost use Rattle.spec_model.specs.declared.item.Item.{Item as Refinement};
ghost use Rattle.connections.specs.Sizes.{level_size};
ghost use Rattle.oss_base.specs.declared.fault.Stop.TheVariants as stop;
ghost use Rattle.levels.specs.LevelFaults.{is_large_level, level_faults, first_level_fault, closure_size};
ghost use Rattle.levels.specs.Levels.{IsLevel, AreLevels};
ghost use Rattle.levels.specs.Steps.{IsScope};

use crate::building::build;
use crate::level::{Level, LevelList};
use crate::limits::excess;
use crate::scope::{Scope, scope_of, turn_to};
use connections::size_by;
use core_ltl::ClosureStop;
use oss_base::{ComponentId, Fault, FaultKind, Stop};
use spec_model::{Item, Spec};
use std::alloc::Global;

/// The formulas of a level have at most this size together.
const MOST_SIZE: u32 = 16384;

/// A fault at the place of the refined contract's name.
fn fault(kind: FaultKind, item: &Item) -> Stop
    ensures { result ≡ stop.Fault (record { kind = kind; place = item.now.place }) }
{
    Stop::Fault(Fault {
        kind,
        place: item.place,
    })
}

/// Whether the formulas of an item's level are too large together.
fn has_large_size(spec: &Spec, scope: &Scope, item: &Item) -> bool
    requires scope { IsScope spec.now scope.now }
    requires component { scope.now.component ≡ item.now.component }
    ensures { result ≡ nat_lt most_level_size (level_size spec.now item.now) }
{
    size_by(spec, &scope.drivers, item) > MOST_SIZE
}

/// The level of an item, unless its formulas or its closure are too large.
fn level_within(alloc: Global, spec: &Spec, scope: &Scope, item: &Item) -> Result<Level, Stop>
    requires scope { IsScope spec.now scope.now }
    requires component { scope.now.component ≡ item.now.component }
    ensures level { IfOk result (IsLevel spec.now item.now) }
    ensures within { OnOk result (is_large_level spec.now item.now ≡ false) }
    ensures members { OnOk result (closure_size spec.now item.now ≤ most_closure_members) }
    ensures large { IfFault result (λ fault. is_large_level spec.now item.now ≡ true) }
    ensures fault { IfFault result (λ fault. fault ≡ record { kind = FaultKind.F28; place = item.now.place }) }
{
    if has_large_size(spec, scope, item) {
        return Err(fault(FaultKind::F28, item));
    }
    match build(alloc, spec, scope, item) {
        Ok(level) => Ok(level),
        Err(ClosureStop::TooLarge) => Err(fault(FaultKind::F28, item)),
        Err(ClosureStop::NoMemory) => Err(Stop::NoMemory),
    }
}

/// The level of an item, or its first fault.
fn level_of(
    alloc: Global,
    spec: &Spec,
    scope: &Scope,
    width: u8,
    item: &Item,
) -> Result<Level, Stop>
    requires scope { IsScope spec.now scope.now }
    requires component { scope.now.component ≡ item.now.component }
    requires least { 1 ≤ width }
    requires most { width ≤ 3 }
    ensures level { IfOk result (IsLevel spec.now item.now) }
    ensures clear { OnOk result (level_faults width spec.now item.now ≡ []) }
    ensures fault { IfFault result (λ fault. slice_get (level_faults width spec.now item.now) 0 ≡ Some fault) }
{
    let level = level_within(alloc, spec, scope, item)?;
    match excess(&level, width) {
        Some(kind) => Err(fault(kind, item)),
        None => Ok(level),
    }
}

/// Adds the level of an item, unless it has a fault. The tables are turned to the item's component.
fn add_level(
    alloc: Global,
    spec: &Spec,
    width: u8,
    scope: &mut Scope,
    list: &mut LevelList,
    item: &Item,
) -> Result<(), Stop>
    requires scope { IsScope spec.now scope.old }
    requires least { 1 ≤ width }
    requires most { width ≤ 3 }
    ensures scope { OnOk result (IsScope spec.now scope.new) }
    ensures levels { OnOk result ((before : List Refinement) → AreLevels spec.now before list.old
        → AreLevels spec.now (before ++ item.now ∷ []) list.new) }
    ensures clear { OnOk result (level_faults width spec.now item.now ≡ []) }
    ensures fault { IfFault result (λ fault. slice_get (level_faults width spec.now item.now) 0 ≡ Some fault) }
{
    turn_to(scope, alloc, spec, item.component)?;
    let level = level_of(alloc, spec, scope, width, item)?;
    list.push(level)?;
    Ok(())
}

/// Adds the levels of these items to an empty list, in their order, unless one has a fault.
fn add_levels(
    alloc: Global,
    spec: &Spec,
    width: u8,
    scope: &mut Scope,
    list: &mut LevelList,
    items: &[Item],
) -> Result<(), Stop>
    requires scope { IsScope spec.now scope.old }
    requires empty { list.old ≡ [] }
    requires least { 1 ≤ width }
    requires most { width ≤ 3 }
    ensures levels { OnOk result (AreLevels spec.now items.now list.new) }
    ensures clear { OnOk result (flat_map (level_faults width spec.now) items.now ≡ []) }
    ensures fault { IfFault result (λ fault.
        slice_get (flat_map (level_faults width spec.now) items.now) 0 ≡ Some fault) }
{
    for item in items {
        add_level(alloc, spec, width, scope, list, item)?;
    }
    Ok(())
}

/// The levels of these items, in their order, or their first fault. The tables are turned to each component.
fn levels_by(
    alloc: Global,
    spec: &Spec,
    width: u8,
    scope: &mut Scope,
    items: &[Item],
) -> Result<LevelList, Stop>
    requires scope { IsScope spec.now scope.old }
    requires least { 1 ≤ width }
    requires most { width ≤ 3 }
    ensures levels { IfOk result (AreLevels spec.now items.now) }
    ensures clear { OnOk result (flat_map (level_faults width spec.now) items.now ≡ []) }
    ensures fault { IfFault result (λ fault.
        slice_get (flat_map (level_faults width spec.now) items.now) 0 ≡ Some fault) }
{
    let mut list = LevelList::new(alloc);
    match add_levels(alloc, spec, width, scope, &mut list, items) {
        Ok(()) => Ok(list),
        Err(stop) => Err(stop),
    }
}

/// The levels of these items, in their order, or their first fault.
fn levels_of(alloc: Global, spec: &Spec, width: u8, items: &[Item]) -> Result<LevelList, Stop>
    requires least { 1 ≤ width }
    requires most { width ≤ 3 }
    ensures levels { IfOk result (AreLevels spec.now items.now) }
    ensures clear { OnOk result (flat_map (level_faults width spec.now) items.now ≡ []) }
    ensures fault { IfFault result (λ fault.
        slice_get (flat_map (level_faults width spec.now) items.now) 0 ≡ Some fault) }
{
    let mut scope = scope_of(alloc, spec, ComponentId(0))?;
    levels_by(alloc, spec, width, &mut scope, items)
}

/// The level of each item, in their order, or the first fault: item by item in text order a level that is too
/// large, that has too many value bits, that has too many guards of at most `width` members. The size of a
/// level is counted before anything is written out, so the time is linear in the sizes of the levels.
pub fn levels(alloc: Global, spec: &Spec, width: u8) -> Result<LevelList, Stop>
    requires least { 1 ≤ width }
    requires most { width ≤ 3 }
    ensures levels { IfOk result (AreLevels spec.now spec.now.items) }
    ensures clear { OnOk result (first_level_fault width spec.now ≡ None) }
    ensures fault { IfFault result (λ fault. first_level_fault width spec.now ≡ Some fault) }
{
    levels_of(alloc, spec, width, spec.items.as_slice())
}
