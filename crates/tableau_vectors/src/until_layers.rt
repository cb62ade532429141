//! The clauses of a layer and of a step, and the fairness conditions, of "p until q" and of "then p": worked by hand.

ghost use Rattle.std.specs.Prelude.{◌≡◌, false, [], ◌∷◌, All, IfOk};
ghost use Rattle.port_types.specs.declared.types.PortType.TheVariants as kind;
ghost use Rattle.typed_ltl.specs.Formulas.{meaning};
ghost use Rattle.typed_ltl.specs.Formulas as logic;
ghost use Rattle.core_ltl.specs.CoreFormulas.{core_form};
ghost use Rattle.state_coding.specs.Codes.{IsCodable};
ghost use Rattle.state_coding.specs.Reads.{ReadsPorts};
ghost use Rattle.tableau_vectors.specs.SoleFormulas.{sole_atoms};

use cnf::{Clause, ClauseBase, Cnf, Lit};
use core_ltl::{Closure, ClosureStop};
use port_types::{NoMemory, PortId, PortType};
use std::alloc::Global;
use std::test::Fail;
use tableau::Tableau;
use typed_ltl::{Atom, Formula, Ports};

/// Literals: a variable, and whether it is positive.
type Literals = &'static [(usize, bool)];

// Variable 0 is the literal of the step. The variables of a layer of p until q are, in order: p, q, they in the next
// valuation, the until, its Next: 1 to 6. The step leads from the layer to itself.
const UNTIL: [Literals; 10] = [
    &[(5, false), (2, true), (1, true)],
    &[(5, false), (2, true), (6, true)],
    &[(5, true), (1, false), (6, false)],
    &[(5, true), (2, false)],
    &[(0, false), (3, false), (1, true)],
    &[(0, false), (3, true), (1, false)],
    &[(0, false), (4, false), (2, true)],
    &[(0, false), (4, true), (2, false)],
    &[(0, false), (6, false), (5, true)],
    &[(0, false), (6, true), (5, false)],
];

fn are_same(clause: &Clause, expected: Literals) -> bool {
    let lits = clause.as_slice();
    if lits.len() != expected.len() {
        return false;
    }
    for i in 0..lits.len() {
        let (var, positive) = expected[i];
        if lits[i].var != var || lits[i].positive != positive {
            return false;
        }
    }
    true
}

fn are(clauses: &[Clause], expected: &[Literals]) -> bool {
    if clauses.len() != expected.len() {
        return false;
    }
    for i in 0..expected.len() {
        if !are_same(&clauses[i], expected[i]) {
            return false;
        }
    }
    true
}

fn two_booleans(alloc: Global) -> Result<Ports, NoMemory>
    ensures { IfOk result (λ ports. ports ≡ kind.Bool ∷ kind.Bool ∷ []) }
{
    let mut ports = Ports::new(alloc);
    ports.push(PortType::Bool)?;
    ports.push(PortType::Bool)?;
    Ok(ports)
}

fn one_boolean(alloc: Global) -> Result<Ports, NoMemory>
    ensures { IfOk result (λ ports. ports ≡ kind.Bool ∷ []) }
{
    let mut ports = Ports::new(alloc);
    ports.push(PortType::Bool)?;
    Ok(ports)
}

fn port(number: u32) -> Formula
    ensures { meaning result ≡ logic.Atomic (logic.TruthAt number false) }
{
    Formula::Atom(Atom::Port {
        port: PortId(number),
        next: false,
    })
}

/// p until q
fn p_until_q(alloc: Global) -> Result<Formula, NoMemory>
    ensures { IfOk result (λ f. meaning f
        ≡ logic.Until (logic.Atomic (logic.TruthAt 0 false)) (logic.Atomic (logic.TruthAt 1 false))) }
{
    Formula::until(alloc, port(0), port(1))
}

/// then p
fn then_p(alloc: Global) -> Result<Formula, NoMemory>
    ensures { IfOk result (λ f. meaning f ≡ logic.Then (logic.Atomic (logic.TruthAt 0 false))) }
{
    Formula::then(alloc, port(0))
}

/// The tableau of the closure of this formula alone.
fn tableau_of(alloc: Global, f: &Formula, ports: &Ports) -> Result<Tableau, ClosureStop>
    requires ports { All IsCodable ports.now }
    requires atoms { All (ReadsPorts ports.now) (sole_atoms (core_form (meaning f.now))) }
{
    let mut closure = Closure::new(alloc);
    closure.desugar_within(alloc, f, 1024)?;
    Ok(Tableau::new(alloc, &closure, ports)?)
}

fn until_tableau(alloc: Global) -> Result<Tableau, ClosureStop> {
    let ports = two_booleans(alloc)?;
    let f = p_until_q(alloc)?;
    let tableau = tableau_of(alloc, &f, &ports)?;
    Ok(tableau)
}

fn then_tableau(alloc: Global) -> Result<Tableau, ClosureStop> {
    let ports = one_boolean(alloc)?;
    let f = then_p(alloc)?;
    let tableau = tableau_of(alloc, &f, &ports)?;
    Ok(tableau)
}

/// A layer, and the step from it to itself under the first variable.
fn layer_with_step(alloc: Global, tableau: &Tableau) -> Result<Cnf, NoMemory> {
    let mut cnf = Cnf::new(alloc);
    let under = Lit {
        var: cnf.new_var()?,
        positive: true,
    };
    let layer = tableau.code_copy(alloc, &mut cnf)?;
    tableau.code_step(&mut cnf, &layer, &layer, under)?;
    Ok(cnf)
}

/// A layer alone.
fn sole_layer(alloc: Global, tableau: &Tableau) -> Result<Cnf, NoMemory> {
    let mut cnf = Cnf::new(alloc);
    tableau.code_copy(alloc, &mut cnf)?;
    Ok(cnf)
}

/// Whether the variables and clauses of a layer of p until q and of its step to itself are those above.
fn until_is_coded(alloc: Global) -> Result<bool, ClosureStop> {
    let tableau = until_tableau(alloc)?;
    let cnf = layer_with_step(alloc, &tableau)?;
    Ok(cnf.vars() == 7 && are(cnf.clauses(), &UNTIL))
}

/// Whether a layer of a Next of no until has three variables and no clause.
fn next_is_coded(alloc: Global) -> Result<bool, ClosureStop> {
    let tableau = then_tableau(alloc)?;
    let cnf = sole_layer(alloc, &tableau)?;
    Ok(cnf.vars() == 3 && cnf.clauses().is_empty())
}

#[test]
fn a_layer_and_its_step(rt: HostRuntime) -> Result<(), Fail> {
    assert!(rt; until_is_coded(rt.alloc())?);
    assert!(rt; next_is_coded(rt.alloc())?);
    Ok(())
}

/// The nodes of the one fairness condition, an until and its right side; None for True, and where there are more.
fn sole_condition(tableau: &Tableau) -> Option<(u32, u32)> {
    if tableau.conditions() != 1 {
        return None;
    }
    match tableau.condition(0) {
        Some((until, right)) => Some((until.0, right.0)),
        None => None,
    }
}

fn until_condition(alloc: Global) -> Result<Option<(u32, u32)>, ClosureStop> {
    let tableau = until_tableau(alloc)?;
    Ok(sole_condition(&tableau))
}

fn then_condition(alloc: Global) -> Result<Option<(u32, u32)>, ClosureStop> {
    let tableau = then_tableau(alloc)?;
    Ok(sole_condition(&tableau))
}

#[test]
fn fairness_conditions(rt: HostRuntime) -> Result<(), Fail> {
    assert_eq!(rt; until_condition(rt.alloc())?, Some((2, 1)));
    assert_eq!(rt; then_condition(rt.alloc())?, None);
    Ok(())
}
