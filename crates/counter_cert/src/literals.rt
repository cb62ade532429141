//! The literals of signed members and of entries in a layer.
//!
//! Main functions: `guard_literals`, `question_clauses`, `start_cases`, `unmet_cases`. They touch memory alone.

ghost use Rattle.std.specs.Prelude.{◌≡◌, ◌<◌, ◌+◌, ◌^◌, ◌++◌, ℕ, pos, All, IfOk, OnOk, length};
ghost use Rattle.tableau.specs.Questions.{signed_literal};
ghost use Rattle.counter_cert.specs.StartClauses.{guard_literals, question_clauses, start_case, start_cases};
ghost use Rattle.counter_cert.specs.StepClauses.{beyond_literals, unmet_literals, unmet_cases};

use crate::bounds::GuardedBound;
use crate::cases::literal_of;
use cnf::{Clause, Lit};
use core_ltl::SignedNode;
use port_types::NoMemory;
use std::alloc::Global;
use tableau::Layer;

/// The literal that says that a node has its sign.
fn signed(layer: &Layer, x: SignedNode) -> Lit
    requires { x.node.0 < length layer.now.members }
    ensures { result ≡ signed_literal layer.now x }
{
    let member = layer.member(x.node);
    if x.positive { member } else { member.negated() }
}

/// The literals of signed members, which together are a clause or a case.
fn code_guard(alloc: Global, layer: &Layer, guard: &[SignedNode]) -> Result<Clause, NoMemory>
    requires { All (λ x. x.node.0 < length layer.now.members) guard.now }
    ensures { IfOk result (λ lits. lits ≡ guard_literals layer.now guard.now) }
{
    let mut lits = Clause::new(alloc);
    for x in guard {
        lits.push(signed(layer, *x))?;
    }
    Ok(lits)
}

/// Each signed member of a question alone.
pub(crate) fn code_question(
    alloc: Global,
    layer: &Layer,
    question: &[SignedNode],
) -> Result<Vec<Clause>, NoMemory>
    requires { All (λ x. x.node.0 < length layer.now.members) question.now }
    ensures { IfOk result (λ clauses. clauses.items ≡ question_clauses layer.now question.now) }
{
    let mut clauses = Vec::new(alloc);
    for x in question {
        let clause = [signed(layer, *x)];
        clauses.push(Clause::from_slice(alloc, &clause)?)?;
    }
    Ok(clauses)
}

/// Puts the case of an entry at the end where its bound is -1.
fn push_start_case(
    alloc: Global,
    cases: &mut Vec<Clause>,
    layer: &Layer,
    entry: &GuardedBound,
) -> Result<(), NoMemory>
    requires { All (λ x. x.node.0 < length layer.now.members) entry.now.guard }
    ensures { OnOk result (cases.new.items ≡ cases.old.items ++ start_case layer.now entry.now) }
{
    if entry.bound < 0 {
        cases.push(code_guard(alloc, layer, entry.guard.as_slice())?)?;
        Ok(())
    } else {
        Ok(())
    }
}

/// The guards of the entries with bound -1.
pub(crate) fn code_start_cases(
    alloc: Global,
    layer: &Layer,
    entries: &[GuardedBound],
) -> Result<Vec<Clause>, NoMemory>
    requires { All (λ entry. All (λ x. x.node.0 < length layer.now.members) entry.guard) entries.now }
    ensures { IfOk result (λ cases. cases.items ≡ start_cases layer.now entries.now) }
{
    let mut cases = Vec::new(alloc);
    for entry in entries {
        push_start_case(alloc, &mut cases, layer, entry)?;
    }
    Ok(cases)
}

/// Puts at the end the literal that progress is beyond the bound, with the variables from `first` on; none where the
/// bound is -1.
fn push_beyond(lits: &mut Clause, first: usize, bound: i32) -> Result<(), NoMemory>
    requires { (b : ℕ) → bound ≡ pos b → first + b < 2 ^ 64 }
    ensures { OnOk result (lits.new ≡ lits.old ++ beyond_literals first bound) }
{
    if bound < 0 {
        Ok(())
    } else {
        lits.push(literal_of(first + bound as usize))?;
        Ok(())
    }
}

/// The literals that say together that an entry is not met.
fn code_unmet(
    alloc: Global,
    layer: &Layer,
    first: usize,
    entry: &GuardedBound,
) -> Result<Clause, NoMemory>
    requires guard { All (λ x. x.node.0 < length layer.now.members) entry.now.guard }
    requires bound { (b : ℕ) → entry.now.bound ≡ pos b → first + b < 2 ^ 64 }
    ensures { IfOk result (λ lits. lits ≡ unmet_literals layer.now first entry.now) }
{
    let mut lits = code_guard(alloc, layer, entry.guard.as_slice())?;
    push_beyond(&mut lits, first, entry.bound)?;
    Ok(lits)
}

/// For each entry the literals that say together that it is not met.
pub(crate) fn code_unmet_cases(
    alloc: Global,
    layer: &Layer,
    first: usize,
    entries: &[GuardedBound],
) -> Result<Vec<Clause>, NoMemory>
    requires guards { All (λ entry. All (λ x. x.node.0 < length layer.now.members) entry.guard) entries.now }
    requires bounds { All (λ entry. (b : ℕ) → entry.bound ≡ pos b → first + b < 2 ^ 64) entries.now }
    ensures { IfOk result (λ cases. cases.items ≡ unmet_cases layer.now first entries.now) }
{
    let mut cases = Vec::new(alloc);
    for entry in entries {
        cases.push(code_unmet(alloc, layer, first, entry)?)?;
    }
    Ok(cases)
}
