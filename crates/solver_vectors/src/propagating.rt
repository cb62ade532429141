//! Literals made true one at a time: what a propagation answers, and how many clauses it reads.

ghost use Rattle.std.specs.Prelude.{◌≡◌};

use crate::clause_bases::{add, add_vars, known};
use cnf::{ClauseBase, Lit};
use port_types::{NoMemory, Steps};
use sat_core::{Propagation, Solver};
use std::alloc::Global;
use std::test::Fail;

fn lit(var: usize, positive: bool) -> Lit
    ensures var { result.var ≡ var }
    ensures positive { result.positive ≡ positive }
{
    Lit { var, positive }
}

// Adds a last clause and makes a literal true; nothing where a variable isn't there.
fn first(
    solver: &mut Solver,
    last: &[Lit],
    lit: Lit,
) -> Result<Option<(Propagation, u64)>, NoMemory> {
    if !known(last, solver.vars()) || lit.var >= solver.vars() {
        return Ok(None);
    }
    solver.add(last)?;
    let mut steps = Steps::start();
    let found = solver.propagate(lit, &mut steps);
    Ok(Some((found, steps.count())))
}

// Adds a last clause and makes two literals true, of the variables `x` and `y`; the second answer, and nothing where
// the first one isn't quiet.
fn second(
    solver: &mut Solver,
    last: &[Lit],
    x: usize,
    y: usize,
) -> Result<Option<Propagation>, NoMemory> {
    if !known(last, solver.vars()) || x >= solver.vars() || y >= solver.vars() || x == y {
        return Ok(None);
    }
    solver.add(last)?;
    let mut steps = Steps::start();
    match solver.propagate(lit(x, true), &mut steps) {
        Propagation::Quiet => Ok(Some(solver.propagate(lit(y, true), &mut steps))),
        Propagation::Conflict(_) => Ok(None),
    }
}

// So many clauses of two literals, each over two variables of its own, beginning with the variable 2.
fn add_pairs(solver: &mut Solver, count: usize) -> Result<(), NoMemory> {
    for pair in 0..count {
        let a = pair.wrapping_mul(2).wrapping_add(2);
        add(solver, &[lit(a, true), lit(a.wrapping_add(1), false)])?;
    }
    Ok(())
}

#[test]
fn three_clauses_among_a_thousand(rt: HostRuntime) -> Result<(), Fail> {
    let mut solver = Solver::new(rt.alloc());
    add_vars(&mut solver, 2002)?;
    add_pairs(&mut solver, 1000)?;
    add(&mut solver, &[lit(0, false), lit(2, true)])?;
    add(&mut solver, &[lit(4, true), lit(0, false), lit(5, true)])?;
    let last = [lit(6, true), lit(0, false), lit(7, true)];
    let found = first(&mut solver, &last, lit(0, true))?;
    assert_eq!(rt; found, Some((Propagation::Quiet, 3)));
    Ok(())
}

#[test]
fn a_conflict_behind_a_quiet_literal(rt: HostRuntime) -> Result<(), Fail> {
    let mut solver = Solver::new(rt.alloc());
    add_vars(&mut solver, 2)?;
    add(&mut solver, &[lit(0, false), lit(1, true)])?;
    let last = [lit(0, false), lit(1, false)];
    assert_eq!(rt;
        second(&mut solver, &last, 0, 1)?,
        Some(Propagation::Conflict(1))
    );
    Ok(())
}
