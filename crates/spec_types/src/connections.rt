//! The connections of a refinement with typed expressions: `wires_of`. Type faults are noted. It touches
//! nothing outside.

ghost use Rattle.std.specs.Prelude.{◌≡◌, ◌++◌, [], IfOk, IfSome, OnOk, Some, map, filter_map, option_map, slice_get};
ghost use Rattle.spec_model.specs.Meanings as meanings;
ghost use Rattle.std.specs.List.{cons_option, flat_map};
ghost use Rattle.oss_syntax.specs.Expressions.{tree};
ghost use Rattle.spec_names.specs.Noting.{noted};
ghost use Rattle.spec_types.specs.Typing.{typed_of};
ghost use Rattle.spec_types.specs.TypeFaults.{source_faults};
ghost use Rattle.spec_types.specs.TypeFaults as faults;
ghost use Rattle.spec_types.specs.Uses.{expression_uses};
ghost use Rattle.spec_types.specs.TreeComponents as specs;
ghost use Rattle.spec_types.specs.Walks as walks;
ghost use Rattle.spec_types.specs.Making as making;
ghost use Rattle.spec_types.specs.Fitting as fitting;

use crate::contracts::{start, used_expression};
use crate::enumerations::Sightings;
use crate::fits::admits_source;
use crate::known_fits::KnownFits;
use crate::port_places::{PortPlace, place_of_source, place_of_target};
use crate::scope::{FoundPort, RefinementScope, Scope, find_port, find_sub_port, same_direction};
use crate::typed::Typed;
use crate::walk::{is_settled, note_unless};
use oss_base::{FirstSite, SubId};
use oss_syntax::{Expr, RefinementItem, TargetTree};
use port_types::{NoMemory, PortId, PortType};
use spec_model::{FreeOrder, Source, Target, Uses, Wire, Wires};
use std::alloc::Global;

/// Of expressions with at most so many names no pairs are kept.
const LONG: usize = 16;

/// The target that a port of this direction is; the first own port where it is none.
fn directed_target(input: bool, sub: Option<SubId>, found: Option<FoundPort>) -> Target
    ensures { result ≡ walks.directed_target input sub (option_map walks.found found.entry) }
{
    match found {
        Some(found) => {
            if same_direction(found.port.input, input) {
                Target {
                    sub,
                    port: PortId(found.place),
                }
            } else {
                Target {
                    sub: None,
                    port: PortId(0),
                }
            }
        }
        None => Target {
            sub: None,
            port: PortId(0),
        },
    }
}

/// The target of a connection.
pub(crate) fn target_of(scope: &RefinementScope, target: &TargetTree) -> Target
    ensures { result ≡ walks.target_by (walks.refinement scope.now) target.now }
{
    match target {
        TargetTree::Own(port) => {
            directed_target(false, None, find_port(scope.own, port.text.as_str()))
        }
        TargetTree::OfSub(sub, port) => match find_sub_port(scope, sub, port) {
            Some((place, found)) => directed_target(true, Some(SubId(place)), Some(found)),
            None => Target {
                sub: None,
                port: PortId(0),
            },
        },
    }
}

/// Whether the expression may be the value of a port of this direction; one that is none counts as boolean.
fn admits(
    alloc: Global,
    sightings: &mut Sightings,
    input: bool,
    found: Option<FoundPort>,
    source: &Typed,
) -> Result<bool, NoMemory>
    ensures { IfOk result (λ fit. fit ≡ faults.admits_source
        (walks.directed_kind input (option_map walks.found found.entry)) (walks.typed source.now)) }
{
    match found {
        Some(found) => {
            if same_direction(found.port.input, input) {
                admits_source(
                    alloc,
                    sightings,
                    &found.port.kind,
                    Some(found.type_number),
                    source,
                )
            } else {
                admits_source(alloc, sightings, &PortType::Bool, None, source)
            }
        }
        None => admits_source(alloc, sightings, &PortType::Bool, None, source),
    }
}

fn target_admits(
    alloc: Global,
    sightings: &mut Sightings,
    scope: &RefinementScope,
    target: &TargetTree,
    source: &Typed,
) -> Result<bool, NoMemory>
    ensures { IfOk result (λ fit. fit ≡ faults.admits_source
        (walks.kind_by (walks.refinement scope.now) target.now) (walks.typed source.now)) }
{
    match target {
        TargetTree::Own(port) => {
            let found = find_port(scope.own, port.text.as_str());
            admits(alloc, sightings, false, found, source)
        }
        TargetTree::OfSub(sub, port) => match find_sub_port(scope, sub, port) {
            Some((_, found)) => admits(alloc, sightings, true, Some(found), source),
            None => admits_source(alloc, sightings, &PortType::Bool, None, source),
        },
    }
}

/// The same of a port that a connection names and one that it reads; a pair that fits is kept.
fn admits_known(
    alloc: Global,
    sightings: &mut Sightings,
    known: &mut KnownFits,
    scope: &RefinementScope,
    target: &TargetTree,
    wanted: PortPlace,
    source: &Typed,
    given: PortPlace,
) -> Result<bool, NoMemory>
    requires known { fitting.KnowsFits scope.now known.old.kept.items }
    requires wanted { fitting.IsPortAt (map walks.interface scope.now.scopes.now) wanted
        (fitting.wants_input target.now) (fitting.found_target (walks.refinement scope.now) target.now) }
    requires given { fitting.IsPortRead (map walks.interface scope.now.scopes.now) given (walks.typed source.now) }
    ensures known { OnOk result (fitting.KnowsFits scope.now known.new.kept.items) }
    ensures fit { IfOk result (λ fit. fit ≡ faults.admits_source
        (walks.kind_by (walks.refinement scope.now) target.now) (walks.typed source.now)) }
{
    if known.tell(wanted, given) {
        Ok(true)
    } else {
        let fit = target_admits(alloc, sightings, scope, target, source)?;
        known.keep_if(fit, wanted, given)?;
        Ok(fit)
    }
}

/// The same of an expression that may be the port at this place.
fn admits_once(
    alloc: Global,
    sightings: &mut Sightings,
    known: &mut KnownFits,
    scope: &RefinementScope,
    target: &TargetTree,
    source: &Typed,
    place: Option<PortPlace>,
) -> Result<bool, NoMemory>
    requires known { fitting.KnowsFits scope.now known.old.kept.items }
    requires place { IfSome place (λ p. fitting.IsPortRead (map walks.interface scope.now.scopes.now) p
        (walks.typed source.now)) }
    ensures known { OnOk result (fitting.KnowsFits scope.now known.new.kept.items) }
    ensures fit { IfOk result (λ fit. fit ≡ faults.admits_source
        (walks.kind_by (walks.refinement scope.now) target.now) (walks.typed source.now)) }
{
    match place {
        None => target_admits(alloc, sightings, scope, target, source),
        Some(given) => match place_of_target(scope, target) {
            None => target_admits(alloc, sightings, scope, target, source),
            Some(wanted) => admits_known(
                alloc, sightings, known, scope, target, wanted, source, given,
            ),
        },
    }
}

/// Notes a type mismatch where the expression may not be the value of the target, unless an earlier fault is known.
fn note_source(
    alloc: Global,
    sightings: &mut Sightings,
    known: &mut KnownFits,
    scope: &RefinementScope,
    target: &TargetTree,
    source: &Typed,
    place: Option<PortPlace>,
    offset: u32,
    first: &mut FirstSite,
) -> Result<(), NoMemory>
    requires known { fitting.KnowsFits scope.now known.old.kept.items }
    requires place { IfSome place (λ p. fitting.IsPortRead (map walks.interface scope.now.scopes.now) p
        (walks.typed source.now)) }
    ensures known { OnOk result (fitting.KnowsFits scope.now known.new.kept.items) }
    ensures first { OnOk result (first.new ≡ noted (faults.mismatch_unless (faults.admits_source
        (walks.kind_by (walks.refinement scope.now) target.now) (walks.typed source.now)) offset) first.old) }
{
    if is_settled(offset, first) {
        Ok(())
    } else {
        let fit = admits_once(alloc, sightings, known, scope, target, source, place)?;
        note_unless(fit, offset, first);
        Ok(())
    }
}

/// Whether the expression is a pick of many names, so that its pairs are worth to be kept.
fn is_long(typed: &Typed) -> bool {
    match typed {
        Typed::Truth(_) => false,
        Typed::Number(_, _) => false,
        Typed::Choice(_, set) => set.names.len() > LONG,
    }
}

/// The port that an expression reads, where it is that port and nothing else, and has many names.
fn long_source(scope: &RefinementScope, typed: &Typed, source: &Expr) -> Option<PortPlace>
    requires { slice_get (map walks.interface scope.now.scopes.now) scope.now.place
        ≡ Some (walks.interface scope.now.own) }
    ensures { IfSome result (λ place. fitting.IsPortAt (map walks.interface scope.now.scopes.now) place
        (fitting.reads_input (tree source.now)) (fitting.found_source (walks.refinement scope.now)
        (tree source.now))) }
{
    if is_long(typed) {
        place_of_source(scope, source)
    } else {
        None
    }
}

fn source_of(typed: Typed) -> Source
    ensures { meanings.source_meaning result ≡ specs.typed_source (walks.typed typed.entry) }
{
    match typed {
        Typed::Truth(formula) => Source::Truth(formula),
        Typed::Number(term, _) => Source::Number(term),
        Typed::Choice(pick, _) => Source::Choice(pick),
    }
}

/// A connection with its typed expression.
#[tactic(auto, using(crate::proofs::Walking::walk_lemmas))]
fn wire<'a>(
    alloc: Global,
    sightings: &mut Sightings,
    known: &mut KnownFits,
    scope: &RefinementScope<'a>,
    order: &FreeOrder,
    target: &TargetTree,
    source: &'a Expr,
    first: &mut FirstSite,
) -> Result<Wire, NoMemory>
    requires { fitting.KnowsFits scope.now known.old.kept.items }
    ensures known { OnOk result (fitting.KnowsFits scope.now known.new.kept.items) }
    ensures wire { IfOk result (λ w. Some (meanings.wire_meaning w)
        ≡ making.wire_in (walks.target_by (walks.refinement scope.now)) (walks.connection_reading_by
        (walks.refinement scope.now) order.now)
        (RefinementItem.Connection target.now source.now)) }
    ensures first { OnOk result (first.new
        ≡ noted (source_faults (walks.connection_reading_by (walks.refinement scope.now) order.now)
        (walks.kind_by (walks.refinement scope.now) target.now) (tree source.now)) first.old) }
{
    let names = Scope::Connection(*scope, order);
    let (typed, uses) = used_expression(alloc, sightings, &names, source, first)?;
    let place = long_source(scope, &typed, source);
    note_source(
        alloc,
        sightings,
        known,
        scope,
        target,
        &typed,
        place,
        start(source),
        first,
    )?;
    Ok(Wire {
        target: target_of(scope, target),
        source: source_of(typed),
        uses,
    })
}

/// Puts a connection at the end, where the item is one.
#[tactic(auto, using(crate::proofs::Making::put_meaning))]
fn put_wire<'a>(
    alloc: Global,
    sightings: &mut Sightings,
    known: &mut KnownFits,
    scope: &RefinementScope<'a>,
    order: &FreeOrder,
    item: &'a RefinementItem,
    wires: &mut Wires,
    first: &mut FirstSite,
) -> Result<(), NoMemory>
    requires { fitting.KnowsFits scope.now known.old.kept.items }
    ensures known { OnOk result (fitting.KnowsFits scope.now known.new.kept.items) }
    ensures wires { OnOk result (map meanings.wire_meaning wires.new ≡ map meanings.wire_meaning wires.old ++
        cons_option
        (making.wire_in (walks.target_by (walks.refinement scope.now))
        (walks.connection_reading_by (walks.refinement scope.now) order.now) item.now) []) }
    ensures first { OnOk result (first.new ≡ noted (making.wire_faults_by (walks.kind_by (walks.refinement scope.now))
        (walks.connection_reading_by (walks.refinement scope.now) order.now) item.now) first.old) }
{
    match item {
        RefinementItem::Sub {
            name: _,
            component: _,
        } => Ok(()),
        RefinementItem::Connection { target, source } => {
            let made = wire(alloc, sightings, known, scope, order, target, source, first)?;
            wires.push(made)
        }
        RefinementItem::Contract { name: _, parts: _ } => Ok(()),
    }
}

/// The connections among these items.
pub(crate) fn wires_of<'a>(
    alloc: Global,
    sightings: &mut Sightings,
    known: &mut KnownFits,
    scope: &RefinementScope<'a>,
    order: &FreeOrder,
    items: &'a [RefinementItem],
    first: &mut FirstSite,
) -> Result<Wires, NoMemory>
    requires { fitting.KnowsFits scope.now known.old.kept.items }
    ensures known { OnOk result (fitting.KnowsFits scope.now known.new.kept.items) }
    ensures wires { IfOk result (λ made. map meanings.wire_meaning made ≡ filter_map
        (making.wire_in (walks.target_by (walks.refinement scope.now))
        (walks.connection_reading_by (walks.refinement scope.now) order.now)) items.now) }
    ensures first { OnOk result (first.new ≡ noted (flat_map (making.wire_faults_by (walks.kind_by
        (walks.refinement scope.now))
        (walks.connection_reading_by (walks.refinement scope.now) order.now)) items.now) first.old) }
{
    let mut wires = Wires::new(alloc);
    for item in items {
        put_wire(
            alloc, sightings, known, scope, order, item, &mut wires, first,
        )?;
    }
    Ok(wires)
}

fn put_target(
    scope: &RefinementScope,
    item: &RefinementItem,
    targets: &mut Vec<Target>,
) -> Result<(), NoMemory>
    ensures { OnOk result (targets.new.items
        ≡ targets.old.items ++ cons_option (making.targets_in (walks.target_by
        (walks.refinement scope.now)) item.now) []) }
{
    match item {
        RefinementItem::Sub {
            name: _,
            component: _,
        } => Ok(()),
        RefinementItem::Connection { target, source: _ } => {
            targets.push(target_of(scope, target))?;
            Ok(())
        }
        RefinementItem::Contract { name: _, parts: _ } => Ok(()),
    }
}

/// The targets of the connections among these items.
pub(crate) fn targets_of(
    alloc: Global,
    scope: &RefinementScope,
    items: &[RefinementItem],
) -> Result<Vec<Target>, NoMemory>
    ensures { IfOk result (λ targets. targets.items
        ≡ filter_map (making.targets_in (walks.target_by (walks.refinement scope.now))) items.now) }
{
    let mut targets = Vec::new(alloc);
    for item in items {
        put_target(scope, item, &mut targets)?;
    }
    Ok(targets)
}
