//! What a lasso says of contracts. Main function: `judge`. It touches memory alone.

ghost use Rattle.std.specs.Prelude.{◌≡◌, ◌↔◌, [], IsTrue, IfOk, OnOk, map, slice_index_or};
ghost use Rattle.typed_ltl.specs.Formulas.{meaning};
ghost use Rattle.typed_ltl.specs.Traces.{word};
ghost use Rattle.typed_ltl.specs.Truth.{Holds, IsModerateOn};
ghost use Rattle.spec_model.specs.Architecture.{targets_at};
ghost use Rattle.connections.specs.Drivers.{driver_of};
ghost use Rattle.replay.specs.Judgements.{all_contracts_at, seen_trace};
ghost use Rattle.replay.specs.Judgements.{IsJudgementBy, AreJudgements, IsModerateContract, HasModerateTerms};
ghost use Rattle.replay.specs.Judging.{AreJudged};

use crate::driven::driven_states;
use crate::judgement::{Judgement, Judgements};
use crate::named::NamedLasso;
use connections::{Driver, contracts_at, port_drivers};
use oss_base::{ComponentId, ContractId, SubId};
use port_types::NoMemory;
use spec_model::{Contract, Spec};
use sqlite_items::{Items, at};
use std::alloc::Global;
use typed_ltl::{Bench, Formula, Lasso, holds_on};

/// Whether a formula holds at the first position of a lasso.
fn holds_first(alloc: Global, lasso: &Lasso, f: &Formula) -> Result<bool, NoMemory>
    requires { IsModerateOn (word lasso.now.states lasso.now.loop_at) (meaning f.now) }
    ensures { IfOk result (λ r. IsTrue r ↔ Holds (word lasso.now.states lasso.now.loop_at) (meaning f.now) 0) }
{
    let mut bench = Bench::new(alloc, f, lasso.states.len())?;
    Ok(holds_on(lasso, f, &mut bench))
}

/// A place as a number of 32 bits.
fn number(place: usize) -> Result<u32, NoMemory>
    ensures { IfOk result (λ number. number ≡ place) }
{
    match u32::try_from(place) {
        Ok(number) => Ok(number),
        Err(_) => Err(NoMemory),
    }
}

/// The drivers of a row of ports.
fn row_at(rows: &[Items<Driver>], place: usize) -> &[Driver]
    ensures { result.now ≡ slice_index_or rows.now place [] }
{
    match at(rows, place) {
        Some(row) => row.as_slice(),
        None => &[],
    }
}

/// The lasso over the ports of the component itself, or of one of its subcomponents, that are driven so.
fn seen_lasso(
    alloc: Global,
    spec: &Spec,
    named: &NamedLasso,
    sub: Option<SubId>,
    drivers: &[Driver],
) -> Result<Lasso, NoMemory>
    requires row { let c = named.now.component in
        drivers.now ≡ map (driver_of spec.now c) (targets_at spec.now c sub) }
    requires moderate { HasModerateTerms spec.now named.now }
    ensures { IfOk result (λ seen. word seen.states seen.loop_at ≡ seen_trace spec.now named.now sub) }
{
    let wires = spec.wires_of(named.component);
    let states = driven_states(alloc, wires, drivers, named.lasso.states.as_slice())?;
    Ok(Lasso {
        states,
        loop_at: named.lasso.loop_at,
    })
}

/// The judgement of a contract by the lasso that its ports see.
fn judgement(
    alloc: Global,
    seen: &Lasso,
    contract: &Contract,
    at: (ComponentId, Option<SubId>, ContractId),
) -> Result<Judgement, NoMemory>
    requires { IsModerateContract (word seen.now.states seen.now.loop_at) contract.now }
    ensures component { IfOk result (λ j. j.component ≡ at.0) }
    ensures sub { IfOk result (λ j. j.sub ≡ at.1) }
    ensures contract { IfOk result (λ j. j.contract ≡ at.2) }
    ensures truths { IfOk result (IsJudgementBy (word seen.now.states seen.now.loop_at) contract.now) }
{
    let (component, sub, id) = at;
    let assume = holds_first(alloc, seen, &contract.assume)?;
    let guarantee = holds_first(alloc, seen, &contract.guarantee)?;
    Ok(Judgement {
        component,
        sub,
        contract: id,
        assume,
        guarantee,
    })
}

/// Puts the judgements of the contracts of the component itself, or of the component of one of its subcomponents, by
/// the lasso that their ports see.
fn put_judgements(
    alloc: Global,
    judgements: &mut Judgements,
    spec: &Spec,
    named: &NamedLasso,
    sub: Option<SubId>,
    seen: &Lasso,
) -> Result<(), NoMemory>
    requires seen { word seen.now.states seen.now.loop_at ≡ seen_trace spec.now named.now sub }
    requires moderate { HasModerateTerms spec.now named.now }
    ensures { OnOk result (AreJudged spec.now named.now (all_contracts_at spec.now named.now.component sub)
        judgements.old judgements.new) }
{
    let contracts = contracts_at(spec, named.component, sub);
    for (place, contract) in contracts.iter().enumerate() {
        let at = (named.component, sub, ContractId(number(place)?));
        let judgement = judgement(alloc, seen, contract, at)?;
        judgements.push(judgement)?;
    }
    Ok(())
}

/// Puts the judgements of the component itself, or of one of its subcomponents, by the drivers of its ports.
fn put_row(
    alloc: Global,
    judgements: &mut Judgements,
    spec: &Spec,
    named: &NamedLasso,
    sub: Option<SubId>,
    drivers: &[Driver],
) -> Result<(), NoMemory>
    requires row { let c = named.now.component in
        drivers.now ≡ map (driver_of spec.now c) (targets_at spec.now c sub) }
    requires moderate { HasModerateTerms spec.now named.now }
    ensures { OnOk result (AreJudged spec.now named.now (all_contracts_at spec.now named.now.component sub)
        judgements.old judgements.new) }
{
    let seen = seen_lasso(alloc, spec, named, sub, drivers)?;
    put_judgements(alloc, judgements, spec, named, sub, &seen)
}

/// What a lasso says of the contracts of its component, and of those of the components of its subcomponents: whether
/// their assumptions and guarantees hold at the first position, where each connected port has the value of its
/// connection's expression.
pub fn judge(alloc: Global, spec: &Spec, named: &NamedLasso) -> Result<Judgements, NoMemory>
    requires { HasModerateTerms spec.now named.now }
    ensures { IfOk result (AreJudgements spec.now named.now) }
{
    let drivers = port_drivers(alloc, spec, named.component)?;
    let rows = drivers.rows.as_slice();
    let mut judgements = Judgements::new(alloc);
    put_row(alloc, &mut judgements, spec, named, None, row_at(rows, 0))?;
    for place in 0..spec.subs_of(named.component).len() {
        let sub = Some(SubId(number(place)?));
        put_row(
            alloc,
            &mut judgements,
            spec,
            named,
            sub,
            row_at(rows, place + 1),
        )?;
    }
    Ok(judgements)
}
