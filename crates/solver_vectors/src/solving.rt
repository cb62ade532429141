//! Small lists of clauses with known answers, and what an assumption forces. Each log is checked.

use crate::clause_bases::{add, add_vars, known};
use clause_log::{ChainLog, Marks, check};
use cnf::{Clause, ClauseBase, Cnf, Lit};
use port_types::NoMemory;
use sat_core::{Outcome, Solver};
use std::alloc::Global;
use std::test::Fail;

// The literal of a number from 1 on, or of its negation.
fn lit(number: i32) -> Lit {
    Lit {
        var: (number.unsigned_abs() as usize).saturating_sub(1),
        positive: number > 0,
    }
}

fn lits(alloc: Global, numbers: &[i32]) -> Result<Vec<Lit>, NoMemory> {
    let mut lits = Vec::new(alloc);
    for number in numbers {
        lits.push(lit(*number))?;
    }
    Ok(lits)
}

// The clauses of numbers, each ended by a 0.
fn clauses_of_numbers(alloc: Global, numbers: &[i32]) -> Result<Vec<Clause>, NoMemory> {
    let mut clauses = Vec::new(alloc);
    let mut open = Clause::new(alloc);
    for number in numbers {
        if *number == 0 {
            clauses.push(open)?;
            open = Clause::new(alloc);
        } else {
            open.push(lit(*number))?;
        }
    }
    Ok(clauses)
}

fn add_all<B: ClauseBase>(base: &mut B, clauses: &[Clause]) -> Result<(), NoMemory> {
    for clause in clauses {
        add(base, clause.as_slice())?;
    }
    Ok(())
}

fn solver_of(alloc: Global, vars: usize, clauses: &[Clause]) -> Result<Solver, NoMemory> {
    let mut solver = Solver::new(alloc);
    add_vars(&mut solver, vars)?;
    add_all(&mut solver, clauses)?;
    Ok(solver)
}

// The clauses over so many variables, followed by a unit clause for each assumption.
fn units_after(
    alloc: Global,
    vars: usize,
    clauses: &[Clause],
    assumptions: &[Lit],
) -> Result<Cnf, NoMemory> {
    let mut cnf = Cnf::new(alloc);
    add_vars(&mut cnf, vars)?;
    add_all(&mut cnf, clauses)?;
    for assumption in assumptions {
        add(&mut cnf, &[*assumption])?;
    }
    Ok(cnf)
}

fn log_checks(alloc: Global, cnf: &Cnf, log: &ChainLog) -> Result<bool, NoMemory> {
    let mut marks = Marks::new(alloc, cnf.vars())?;
    Ok(check(cnf, log, &mut marks))
}

// Whether a literal of the clause has the sign that the model gives its variable.
fn holds(values: &[bool], clause: &[Lit]) -> bool {
    for lit in clause {
        if values.get(lit.var).copied() == Some(lit.positive) {
            return true;
        }
    }
    false
}

fn all_hold(values: &[bool], clauses: &[Clause]) -> bool {
    for clause in clauses {
        if !holds(values, clause.as_slice()) {
            return false;
        }
    }
    true
}

// Solves. Answers whether there is a model, and nothing where the model or the log is wrong.
fn answer(
    alloc: Global,
    solver: &mut Solver,
    clauses: &[Clause],
    assumptions: &[Lit],
) -> Result<Option<bool>, NoMemory> {
    let vars = solver.vars();
    if !known(assumptions, vars) {
        return Ok(None);
    }
    let cnf = units_after(alloc, vars, clauses, assumptions)?;
    match solver.solve(assumptions)? {
        Outcome::Sat(model) => {
            let right = model.len() == vars && all_hold(model.as_slice(), cnf.clauses());
            Ok(if right { Some(true) } else { None })
        }
        Outcome::Unsat(log) => {
            let right = log_checks(alloc, &cnf, &log)?;
            Ok(if right { Some(false) } else { None })
        }
    }
}

// Clauses over three variables, assumptions, and whether they have a model.
const SMALL: [(&[i32], &[i32], bool); 14] = [
    (&[1, 0, -1, 0], &[], false),
    (&[1, 2, 0], &[-1], true),
    (&[1, 2, 0], &[-1, -2], false),
    (&[], &[1, -1], false),
    (&[], &[-2, 1, 2], false),
    (&[0], &[], false),
    (&[0], &[1], false),
    (&[], &[], true),
    (&[1, -1, 0], &[], true),
    (&[1, 1, 0, -1, -1, 0], &[], false),
    (&[1, 2, 0, 1, -2, 0, -1, 3, 0, -1, -3, 0], &[], false),
    (&[1, 2, 0, 1, -2, 0, -1, 3, 0], &[-3], false),
    (&[-1, 2, 0, -2, 3, 0], &[1, -3], false),
    (&[-1, 2, 0, -2, 3, 0], &[1, 1], true),
];

#[test]
fn small_lists(rt: HostRuntime) -> Result<(), Fail> {
    let alloc = rt.alloc();
    for (numbers, assumed, expected) in SMALL {
        let clauses = clauses_of_numbers(alloc, numbers)?;
        let assumptions = lits(alloc, assumed)?;
        let mut solver = solver_of(alloc, 3, &clauses)?;
        assert_eq!(rt;
            answer(alloc, &mut solver, &clauses, &assumptions)?,
            Some(expected)
        );
    }
    Ok(())
}

// The value of a variable in the model that is found, if one is.
fn value(solver: &mut Solver, assumption: Lit, var: usize) -> Result<Option<bool>, NoMemory> {
    if assumption.var >= solver.vars() {
        return Ok(None);
    }
    match solver.solve(&[assumption])? {
        Outcome::Sat(model) => Ok(model.as_slice().get(var).copied()),
        Outcome::Unsat(_) => Ok(None),
    }
}

#[test]
fn an_assumption_forces_the_other_literal(rt: HostRuntime) -> Result<(), Fail> {
    let alloc = rt.alloc();
    let clauses = clauses_of_numbers(alloc, &[1, 2, 0])?;
    let mut solver = solver_of(alloc, 2, &clauses)?;
    assert_eq!(rt; value(&mut solver, lit(-1), 1)?, Some(true));
    assert_eq!(rt; value(&mut solver, lit(-2), 0)?, Some(true));
    Ok(())
}

// Assumptions in turn, and whether the clauses of the next test have a model under them.
const CHANGING: [(&[i32], bool); 6] = [
    (&[], true),
    (&[-4], false),
    (&[-1], true),
    (&[-1, -2], false),
    (&[4], true),
    (&[3, -4], false),
];

// One solver keeps what it learnt, and answers each question as if it were the first.
#[test]
fn changing_assumptions(rt: HostRuntime) -> Result<(), Fail> {
    let alloc = rt.alloc();
    let clauses = clauses_of_numbers(alloc, &[1, 2, 0, -1, 3, 0, -2, 3, 0, -3, 4, 0])?;
    let mut solver = solver_of(alloc, 4, &clauses)?;
    for (assumed, expected) in CHANGING {
        let assumptions = lits(alloc, assumed)?;
        assert_eq!(rt;
            answer(alloc, &mut solver, &clauses, &assumptions)?,
            Some(expected)
        );
    }
    Ok(())
}
