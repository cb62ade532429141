//! The clauses that a step log refutes.
//!
//! Main function: `step_cnf`. Touches memory alone.

ghost use Rattle.std.specs.Prelude.{◌≡◌, ◌<◌, ◌+◌, ◌^◌, ◌++◌, ◌∷◌, ◌↔◌, [], All, IfOk, OnOk, length};
ghost use Rattle.cnf.specs.Gates.{literal};
ghost use Rattle.tableau.specs.TableauStates.{fairness};
ghost use Rattle.tableau.specs.Copies.{copy_coding};
ghost use Rattle.tableau.specs.Steps.{step_clauses};
ghost use Rattle.counter_cert.specs.Progress.{most_progress};
ghost use Rattle.counter_cert.specs.Certificates.{IsProgressBound};
ghost use Rattle.counter_cert.specs.StartClauses.{some_case_clauses};
ghost use Rattle.counter_cert.specs.StepClauses.{step_coding, counting_clauses, no_case_clauses, unmet_cases};
ghost use Rattle.counter_cert.specs.Checking.{HasModel, BreaksStep};
ghost use Rattle.counter_cert.specs.Pairs.{IsCodedPair};

use crate::bounds::{Certificate, GuardedBound};
use crate::cases::{add_some_case, literal_of, no_case};
use crate::clauses::add_clauses;
use crate::counting::{Firsts, add_firsts, code_counting};
use crate::literals::code_unmet_cases;
use cnf::{ClauseBase, Cnf};
use port_types::NoMemory;
use std::alloc::Global;
use tableau::{Layer, Tableau};

/// A layer and one that it steps to.
#[derive(Drop)]
struct LayerPair {
    from: Layer,
    to: Layer,
}

/// Adds two layers, of which the one steps to the other.
fn add_pair(alloc: Global, cnf: &mut Cnf, tab: &Tableau) -> Result<LayerPair, NoMemory>
    requires vars { cnf.old.vars ≡ 0 }
    requires clauses { cnf.old.clauses ≡ [] }
    ensures from { IfOk result (λ pair. pair.from ≡ (copy_coding tab.now 0).layer) }
    ensures to { IfOk result (λ pair. pair.to ≡ (copy_coding tab.now (copy_coding tab.now 0).vars).layer) }
    ensures vars { IfOk result (λ pair. cnf.new.vars ≡ (copy_coding tab.now (copy_coding tab.now 0).vars).vars + 1) }
    ensures clauses { IfOk result (λ pair. cnf.new.clauses
        ≡ (copy_coding tab.now 0).clauses ++ (copy_coding tab.now (copy_coding tab.now 0).vars).clauses
        ++ (literal (copy_coding tab.now (copy_coding tab.now 0).vars).vars ∷ []) ∷ []
        ++ step_clauses tab.now pair.from pair.to (literal (copy_coding tab.now (copy_coding tab.now 0).vars).vars)) }
    ensures pair { IfOk result (λ pair. IsCodedPair cnf.new.vars cnf.new.clauses tab.now pair.from pair.to) }
{
    tableau::layers_stay(); // a law: no code runs
    let from = tab.code_copy(alloc, cnf)?;
    let to = tab.code_copy(alloc, cnf)?;
    let under = literal_of(cnf.new_var()?);
    cnf.add(&[under])?;
    tab.code_step(cnf, &from, &to, under)?;
    Ok(LayerPair { from, to })
}

/// Adds that the state of the layer with its progress meets all entries, and how progress counts.
fn add_met(
    alloc: Global,
    cnf: &mut Cnf,
    tab: &Tableau,
    layer: &Layer,
    firsts: Firsts,
    entries: &[GuardedBound],
) -> Result<(), NoMemory>
    requires members { All (λ lit. lit.var < cnf.old.vars) layer.now.members }
    requires count { length layer.now.members ≡ length tab.now.closure.nodes }
    requires guards { All (λ entry. All (λ x. x.node.0 < length tab.now.closure.nodes) entry.guard) entries.now }
    requires bounds { All (λ entry. IsProgressBound firsts.most entry.bound) entries.now }
    requires conditions { firsts.conditions ≡ length (fairness tab.now) }
    requires met { firsts.met ≡ firsts.over + (firsts.most + 1) }
    requires next { firsts.over_next ≡ firsts.met + firsts.conditions }
    requires known { cnf.old.vars ≡ firsts.over_next + (firsts.most + 1) }
    requires room { cnf.old.vars < 2 ^ 64 }
    ensures vars { OnOk result (cnf.new.vars ≡ cnf.old.vars) }
    ensures clauses { OnOk result (cnf.new.clauses ≡ cnf.old.clauses
        ++ counting_clauses tab.now firsts.most layer.now firsts.over firsts.met firsts.over_next
        ++ no_case_clauses (unmet_cases layer.now firsts.over entries.now)) }
{
    tab.members(); // for its promise: the closure is one
    tab.conditions(); // for its promise: there is one
    let counting = code_counting(alloc, tab, layer, firsts)?;
    add_clauses(cnf, counting.as_slice())?;
    let unmet = code_unmet_cases(alloc, layer, firsts.over, entries)?;
    let met = no_case(alloc, unmet.as_slice())?;
    add_clauses(cnf, met.as_slice())?;
    Ok(())
}

/// Adds that the state of the layer with the progress after does not meet some entry.
fn add_unmet(
    alloc: Global,
    cnf: &mut Cnf,
    layer: &Layer,
    firsts: Firsts,
    entries: &[GuardedBound],
) -> Result<(), NoMemory>
    requires members { All (λ lit. lit.var < cnf.old.vars) layer.now.members }
    requires guards { All (λ entry. All (λ x. x.node.0 < length layer.now.members) entry.guard) entries.now }
    requires bounds { All (λ entry. IsProgressBound firsts.most entry.bound) entries.now }
    requires known { cnf.old.vars ≡ firsts.over_next + (firsts.most + 1) }
    requires room { cnf.old.vars < 2 ^ 64 }
    ensures vars { OnOk result (cnf.new.vars ≡ cnf.old.vars + length entries.now) }
    ensures clauses { OnOk result (cnf.new.clauses
        ≡ cnf.old.clauses ++ some_case_clauses cnf.old.vars (unmet_cases layer.now firsts.over_next entries.now)) }
{
    let unmet = code_unmet_cases(alloc, layer, firsts.over_next, entries)?;
    add_some_case(alloc, cnf, unmet.as_slice())?;
    Ok(())
}

/// The clauses that have a model exactly where a state with a progress meets all entries, and a state that it steps to,
/// with the progress after it, does not.
pub fn step_cnf(alloc: Global, tab: &Tableau, k: u8, cert: &Certificate) -> Result<Cnf, NoMemory>
    requires guards { All (λ entry. All (λ x. x.node.0 < length tab.now.closure.nodes) entry.guard) cert.now }
    requires bounds { All (λ entry. IsProgressBound (most_progress tab.now k) entry.bound) cert.now }
    ensures clauses { IfOk result (λ cnf. cnf.clauses ≡ (step_coding tab.now k cert.now).clauses) }
    ensures vars { IfOk result (λ cnf. cnf.vars ≡ (step_coding tab.now k cert.now).vars) }
    ensures models { IfOk result (λ cnf. HasModel cnf ↔ BreaksStep tab.now k cert.now) }
{
    tab.members(); // for its promise: the closure is one
    let mut cnf = Cnf::new(alloc);
    let pair = add_pair(alloc, &mut cnf, tab)?;
    let conditions = tab.conditions();
    let firsts = add_firsts(&mut cnf, conditions, k as usize * conditions)?;
    let entries = cert.as_slice();
    add_met(alloc, &mut cnf, tab, &pair.from, firsts, entries)?;
    add_unmet(alloc, &mut cnf, &pair.to, firsts, entries)?;
    Ok(cnf)
}
