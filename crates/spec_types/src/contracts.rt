//! The contracts of an interface with typed formulas: `contracts_of`. Type faults are noted. It touches
//! nothing outside.

ghost use Rattle.std.specs.Prelude.{◌≡◌, ◌++◌, [], IfOk, OnOk, map, filter_map, option_map};
ghost use Rattle.spec_model.specs.Meanings as meanings;
ghost use Rattle.std.specs.List.{cons_option, flat_map};
ghost use Rattle.oss_syntax.specs.Expressions.{tree};
ghost use Rattle.typed_ltl.specs.Formulas.{meaning};
ghost use Rattle.spec_names.specs.Noting.{noted};
ghost use Rattle.spec_types.specs.Typing.{typed_of, formula_in as truth_of};
ghost use Rattle.spec_types.specs.TypeFaults.{formula_faults, expression_start};
ghost use Rattle.spec_types.specs.TypeFaults as faults;
ghost use Rattle.spec_types.specs.Uses.{expression_uses};
ghost use Rattle.spec_types.specs.Walks as walks;
ghost use Rattle.spec_types.specs.Making as making;

use crate::counts::{Counts, size};
use crate::enumerations::Sightings;
use crate::fits::is_formula;
use crate::operators::formula_in;
use crate::scope::Scope;
use crate::typed::Typed;
use crate::walk::{note_unless, typed_expression};
use oss_base::FirstSite;
use oss_syntax::{Expr, InterfaceItem, Word};
use port_types::NoMemory;
use spec_model::{Contract, Contracts, Uses};
use std::alloc::Global;
use typed_ltl::Formula;

/// Where the first token of an expression begins.
pub(crate) fn start(expr: &Expr) -> u32
    ensures { result ≡ expression_start (tree expr.now) }
{
    match expr {
        Expr::Name(name) => name.span.start,
        Expr::Dotted(sub, _) => sub.span.start,
        Expr::Numeral(_, span) => span.start,
        Expr::Truth(_, span) => span.start,
        Expr::Brackets(_, span) => span.start,
        Expr::OfPort(_, _, span) => span.start,
        Expr::Prefix(_, _, span) => span.start,
        Expr::Binary(_, left, _, _) => start(left.get()),
    }
}

/// What an expression stands for, with its uses. The first type fault in it is noted.
pub(crate) fn used_expression<'a, 'o>(
    alloc: Global,
    sightings: &mut Sightings,
    scope: &Scope<'a, 'o>,
    expr: &'a Expr,
    first: &mut FirstSite,
) -> Result<(Typed<'a>, Uses), NoMemory>
    ensures typed { IfOk result (λ used. walks.typed used.0
        ≡ typed_of (walks.scope_reading scope.now) (tree expr.now)) }
    ensures uses { IfOk result (λ used. used.1 ≡ expression_uses (walks.scope_reading scope.now) (tree expr.now)) }
    ensures first { OnOk result (first.new
        ≡ noted (faults.expression_faults (walks.scope_reading scope.now) (tree expr.now)) first.old) }
{
    let size = size(expr)?;
    let mut counts = Counts::new(alloc);
    let typed = typed_expression(alloc, sightings, scope, expr, &mut counts, first)?;
    let ports = counts.port_uses(alloc)?;
    Ok((typed, Uses { size, ports }))
}

/// A whole formula, with its uses. It has to be boolean.
#[tactic(auto, using(crate::proofs::Walking::walk_lemmas))]
fn formula<'a, 'o>(
    alloc: Global,
    sightings: &mut Sightings,
    scope: &Scope<'a, 'o>,
    expr: &'a Expr,
    first: &mut FirstSite,
) -> Result<(Formula, Uses), NoMemory>
    ensures formula { IfOk result (λ used. meaning used.0
        ≡ truth_of (typed_of (walks.scope_reading scope.now) (tree expr.now))) }
    ensures uses { IfOk result (λ used. used.1 ≡ expression_uses (walks.scope_reading scope.now) (tree expr.now)) }
    ensures first { OnOk result (first.new ≡ noted (formula_faults (walks.scope_reading scope.now)
        (tree expr.now)) first.old) }
{
    let (typed, uses) = used_expression(alloc, sightings, scope, expr, first)?;
    note_unless(is_formula(&typed), start(expr), first);
    Ok((formula_in(typed), uses))
}

/// A contract with its typed formulas.
#[tactic(auto, using(crate::proofs::Walking::walk_lemmas))]
fn contract<'a, 'o>(
    alloc: Global,
    sightings: &mut Sightings,
    scope: &Scope<'a, 'o>,
    name: &Word,
    assume: &'a Expr,
    guarantee: &'a Expr,
    first: &mut FirstSite,
) -> Result<Contract, NoMemory>
    ensures contract { IfOk result (λ k. meanings.contract_meaning k
        ≡ making.contract_by (walks.scope_reading scope.now) name.now.text (tree assume.now) (tree guarantee.now)) }
    ensures first { OnOk result (first.new ≡ noted (formula_faults (walks.scope_reading scope.now) (tree assume.now)
        ++ formula_faults (walks.scope_reading scope.now) (tree guarantee.now)) first.old) }
{
    let name = name.text.copy()?;
    let (assume, assume_uses) = formula(alloc, sightings, scope, assume, first)?;
    let (guarantee, guarantee_uses) = formula(alloc, sightings, scope, guarantee, first)?;
    Ok(Contract {
        name,
        assume,
        assume_uses,
        guarantee,
        guarantee_uses,
    })
}

/// Puts a contract at the end, where the item is one.
#[tactic(auto, using(crate::proofs::Making::put_meaning))]
fn put_contract<'a, 'o>(
    alloc: Global,
    sightings: &mut Sightings,
    scope: &Scope<'a, 'o>,
    item: &'a InterfaceItem,
    contracts: &mut Contracts,
    first: &mut FirstSite,
) -> Result<(), NoMemory>
    ensures contracts { OnOk result (map meanings.contract_meaning contracts.new
        ≡ map meanings.contract_meaning contracts.old ++ cons_option (making.contract_in
        (walks.scope_reading scope.now) item.now) []) }
    ensures first { OnOk result (first.new ≡ noted (making.item_faults_by
        (walks.scope_reading scope.now) item.now) first.old) }
{
    match item {
        InterfaceItem::Port {
            input: _,
            name: _,
            kind: _,
        } => Ok(()),
        InterfaceItem::Contract {
            name,
            assume,
            guarantee,
        } => contracts.push(contract(alloc, sightings, scope, name, assume, guarantee, first)?),
    }
}

/// The contracts among these items.
pub(crate) fn contracts_of<'a, 'o>(
    alloc: Global,
    sightings: &mut Sightings,
    scope: &Scope<'a, 'o>,
    items: &'a [InterfaceItem],
    first: &mut FirstSite,
) -> Result<Contracts, NoMemory>
    ensures contracts { IfOk result (λ made. map meanings.contract_meaning made
        ≡ filter_map (making.contract_in (walks.scope_reading scope.now)) items.now) }
    ensures first { OnOk result (first.new ≡ noted (flat_map (making.item_faults_by
        (walks.scope_reading scope.now)) items.now) first.old) }
{
    let mut contracts = Contracts::new(alloc);
    for item in items {
        put_contract(alloc, sightings, scope, item, &mut contracts, first)?;
    }
    Ok(contracts)
}
