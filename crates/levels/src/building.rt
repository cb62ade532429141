//! The closure of a level and the nodes of its formulas: `build`. May touch the allocator.

ghost use Rattle.std.specs.Prelude.{◌≡◌, ◌≤◌, ◌<◌, ◌∷◌, [], IfOk, OnOk, IsErrOf, length, map};
ghost use Rattle.oss_base.specs.Limits.{most_closure_members};
ghost use Rattle.typed_ltl.specs.Formulas.{meaning};
ghost use Rattle.typed_ltl.specs.Formulas as form;
ghost use Rattle.spec_model.specs.FreePlaces.{Rises};
ghost use Rattle.connections.specs.LevelFormulas.{formulas_of_part};
ghost use Rattle.core_ltl.specs.CoreFormulas.{core_form};
ghost use Rattle.core_ltl.specs.Nodes.{members, StandsFor};
ghost use Rattle.levels.specs.LevelFaults.{closure_size};
ghost use Rattle.levels.specs.Levels.{IsLevel, IsNodeOf, ArePartNodes, AreAllPartNodes, over_places, part_formulas};
ghost use Rattle.levels.specs.Levels.{with_formulas, no_members, occurring};
ghost use Rattle.first_lasso.specs.UsedPorts.{types_at as types_by};
ghost use Rattle.levels.specs.Steps.{AddsFormulas, AreFormulaNodes, AreNodes, ExceedsWith, IsBuilt, IsScope};
ghost use Rattle.levels.specs.Steps.{closure_over, formulas_meaning, over_all, parts_formulas, shown_type};

use crate::level::{Level, PartNodes};
use crate::places::occurring_places;
use crate::reading::read_ports;
use crate::renumbering::formula_over_places;
use crate::scope::{Scope, types_at};
use connections::{LevelFormulas, Part, substitute_by};
use core_ltl::{Closure, ClosureStop, NodeId};
use oss_base::ComponentId;
use port_types::{ListOf, NoMemory};
use spec_model::{Item, Spec};
use std::alloc::Global;
use typed_ltl::{Formula, Ports};

/// A closure of a level has at most so many members.
const MOST_MEMBERS: u32 = 1024;

/// Adds a formula.
#[tactic(auto, unfolding(crate::specs::Levels::with_formulas))]
fn add(alloc: Global, closure: &mut Closure, f: &Formula) -> Result<NodeId, ClosureStop>
    requires { length closure.old.nodes ≤ most_closure_members }
    ensures added { OnOk result (AddsFormulas closure.old closure.new (meaning f.now ∷ [])) }
    ensures too_large { IsErrOf result ClosureStop.TooLarge → ExceedsWith closure.old (meaning f.now ∷ []) }
    ensures node { IfOk result (λ node. StandsFor (members closure.new) node.0 (core_form (meaning f.now))) }
{
    closure.desugar_within(alloc, f, MOST_MEMBERS)
}

/// Adds a formula over the ports that occur.
fn add_over(
    alloc: Global,
    closure: &mut Closure,
    places: &[u32],
    f: &Formula,
) -> Result<NodeId, ClosureStop>
    requires rises { Rises 0 places.now }
    requires within { length closure.old.nodes ≤ most_closure_members }
    ensures added { OnOk result
        (AddsFormulas closure.old closure.new (over_places places.now (meaning f.now) ∷ [])) }
    ensures too_large { IsErrOf result ClosureStop.TooLarge
        → ExceedsWith closure.old (over_places places.now (meaning f.now) ∷ []) }
    ensures node { IfOk result (λ node. IsNodeOf (members closure.new) places.now node (meaning f.now)) }
{
    let f = formula_over_places(alloc, places, f)?;
    add(alloc, closure, &f)
}

/// That one formula implies another, over the ports that occur.
fn implied_over(
    alloc: Global,
    places: &[u32],
    asked: &Formula,
    given: &Formula,
) -> Result<Formula, NoMemory>
    requires { Rises 0 places.now }
    ensures { IfOk result (λ made. meaning made
        ≡ over_places places.now (form.Implies (meaning asked.now) (meaning given.now))) }
{
    let asked = formula_over_places(alloc, places, asked)?;
    let given = formula_over_places(alloc, places, given)?;
    Formula::implication(alloc, asked, given)
}

/// Adds that one formula implies another, over the ports that occur.
fn add_implied(
    alloc: Global,
    closure: &mut Closure,
    places: &[u32],
    asked: &Formula,
    given: &Formula,
) -> Result<NodeId, ClosureStop>
    requires rises { Rises 0 places.now }
    requires within { length closure.old.nodes ≤ most_closure_members }
    ensures added { OnOk result (AddsFormulas closure.old closure.new
        (over_places places.now (form.Implies (meaning asked.now) (meaning given.now)) ∷ [])) }
    ensures too_large { IsErrOf result ClosureStop.TooLarge → ExceedsWith closure.old
        (over_places places.now (form.Implies (meaning asked.now) (meaning given.now)) ∷ []) }
    ensures node { IfOk result (λ node.
        IsNodeOf (members closure.new) places.now node (form.Implies (meaning asked.now) (meaning given.now))) }
{
    let implied = implied_over(alloc, places, asked, given)?;
    add(alloc, closure, &implied)
}

/// Adds the assumption, the guarantee and the normal form of a listed contract, over the ports that occur.
fn add_part(
    alloc: Global,
    closure: &mut Closure,
    places: &[u32],
    part: &Part,
) -> Result<PartNodes, ClosureStop>
    requires rises { Rises 0 places.now }
    requires within { length closure.old.nodes ≤ most_closure_members }
    ensures added { OnOk result (AddsFormulas closure.old closure.new
        (over_all places.now (part_formulas (formulas_of_part part.now)))) }
    ensures too_large { IsErrOf result ClosureStop.TooLarge
        → ExceedsWith closure.old (over_all places.now (part_formulas (formulas_of_part part.now))) }
    ensures nodes { IfOk result (λ nodes.
        ArePartNodes (members closure.new) places.now nodes (formulas_of_part part.now)) }
{
    let assume = add_over(alloc, closure, places, &part.assume)?;
    let guarantee = add_over(alloc, closure, places, &part.guarantee)?;
    let normal_form = add_implied(alloc, closure, places, &part.assume, &part.guarantee)?;
    Ok(PartNodes {
        sub: part.sub,
        assume,
        guarantee,
        normal_form,
    })
}

/// Adds all listed contracts, one after the other.
fn add_parts(
    alloc: Global,
    closure: &mut Closure,
    places: &[u32],
    parts: &[Part],
) -> Result<Vec<PartNodes>, ClosureStop>
    requires rises { Rises 0 places.now }
    requires within { length closure.old.nodes ≤ most_closure_members }
    ensures added { OnOk result (AddsFormulas closure.old closure.new
        (parts_formulas places.now (map formulas_of_part parts.now))) }
    ensures too_large { IsErrOf result ClosureStop.TooLarge
        → ExceedsWith closure.old (parts_formulas places.now (map formulas_of_part parts.now)) }
    ensures nodes { IfOk result (λ nodes.
        AreAllPartNodes (members closure.new) places.now nodes.items (map formulas_of_part parts.now)) }
{
    let mut nodes = Vec::new(alloc);
    for part in parts {
        let part = add_part(alloc, closure, places, part)?;
        nodes.push(part)?;
    }
    Ok(nodes)
}

/// The nodes of the formulas of a level.
#[derive(Drop)]
struct FormulaNodes {
    assume: NodeId,
    guarantee: NodeId,
    parts: Vec<PartNodes>,
}

/// Adds all formulas of a level, over the ports at these places.
fn add_formulas(
    alloc: Global,
    closure: &mut Closure,
    places: &[u32],
    formulas: &LevelFormulas,
) -> Result<FormulaNodes, ClosureStop>
    requires rises { Rises 0 places.now }
    requires within { length closure.old.nodes ≤ most_closure_members }
    ensures added { OnOk result
        (AddsFormulas closure.old closure.new (closure_over places.now (formulas_meaning formulas.now))) }
    ensures too_large { IsErrOf result ClosureStop.TooLarge
        → ExceedsWith closure.old (closure_over places.now (formulas_meaning formulas.now)) }
    ensures nodes { IfOk result (AreFormulaNodes (members closure.new) places.now (formulas_meaning formulas.now)) }
{
    let assume = add_over(alloc, closure, places, &formulas.assume)?;
    let guarantee = add_over(alloc, closure, places, &formulas.guarantee)?;
    let parts = add_parts(alloc, closure, places, formulas.parts.as_slice())?;
    Ok(FormulaNodes {
        assume,
        guarantee,
        parts,
    })
}

/// The closure of a level with the nodes of its formulas.
#[derive(Drop)]
struct LevelNodes {
    closure: Closure,
    assume: NodeId,
    guarantee: NodeId,
    parts: Vec<PartNodes>,
}

/// Adds all formulas to an empty closure, over the ports at these places.
fn nodes_of(
    alloc: Global,
    places: &[u32],
    formulas: &LevelFormulas,
) -> Result<LevelNodes, ClosureStop>
    requires { Rises 0 places.now }
    ensures nodes { IfOk result (AreNodes places.now (formulas_meaning formulas.now)) }
    ensures too_large { IsErrOf result ClosureStop.TooLarge → most_closure_members
        < length (with_formulas no_members (closure_over places.now (formulas_meaning formulas.now))).nodes }
{
    let mut closure = Closure::new(alloc);
    match add_formulas(alloc, &mut closure, places, formulas) {
        Ok(nodes) => Ok(LevelNodes {
            closure,
            assume: nodes.assume,
            guarantee: nodes.guarantee,
            parts: nodes.parts,
        }),
        Err(stop) => Err(stop),
    }
}

/// The level with these formulas, over the ports at these places.
fn with_nodes(
    alloc: Global,
    component: ComponentId,
    places: Vec<u32>,
    ports: Ports,
    formulas: &LevelFormulas,
) -> Result<Level, ClosureStop>
    requires { Rises 0 places.items }
    ensures level { IfOk result (IsBuilt component places.items ports (formulas_meaning formulas.now)) }
    ensures too_large { IsErrOf result ClosureStop.TooLarge → most_closure_members
        < length (with_formulas no_members (closure_over places.items (formulas_meaning formulas.now))).nodes }
{
    match nodes_of(alloc, places.as_slice(), formulas) {
        Ok(nodes) => Ok(Level {
            component,
            places: ListOf::from_vec(places),
            ports,
            closure: nodes.closure,
            assume: nodes.assume,
            guarantee: nodes.guarantee,
            parts: nodes.parts,
        }),
        Err(stop) => Err(stop),
    }
}

/// The level with these formulas, over those ports of the component that occur in them.
fn over_ports(alloc: Global, scope: &Scope, formulas: &LevelFormulas) -> Result<Level, ClosureStop>
    ensures level { let places = occurring scope.now.drivers.free (formulas_meaning formulas.now) in
        IfOk result (IsBuilt scope.now.component places (types_by (map shown_type scope.now.free) places)
        (formulas_meaning formulas.now)) }
    ensures too_large { let meant = formulas_meaning formulas.now in
        IsErrOf result ClosureStop.TooLarge → most_closure_members
        < length (with_formulas no_members (closure_over (occurring scope.now.drivers.free meant) meant)).nodes }
{
    let ports = read_ports(alloc, formulas)?;
    let places = occurring_places(ports, scope.drivers.free);
    let ports = types_at(alloc, scope.free.as_slice(), places.as_slice())?;
    match with_nodes(alloc, scope.component, places, ports, formulas) {
        Ok(level) => Ok(level),
        Err(stop) => Err(stop),
    }
}

/// The level of an item, with its closure, which has at most 1,024 members.
pub(crate) fn build(
    alloc: Global,
    spec: &Spec,
    scope: &Scope,
    item: &Item,
) -> Result<Level, ClosureStop>
    requires scope { IsScope spec.now scope.now }
    requires component { scope.now.component ≡ item.now.component }
    ensures level { IfOk result (IsLevel spec.now item.now) }
    ensures within { OnOk result (closure_size spec.now item.now ≤ most_closure_members) }
    ensures too_large { IsErrOf result ClosureStop.TooLarge
        → most_closure_members < closure_size spec.now item.now }
{
    let formulas = substitute_by(alloc, spec, &scope.drivers, item)?;
    over_ports(alloc, scope, &formulas)
}
