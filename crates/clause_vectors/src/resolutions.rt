//! Logs by hand, each with the answer that its resolutions have on paper.

use crate::known_variables::known;
use clause_log::{Chain, ChainLog, Marks, Pivot, Pivots, check};
use cnf::{Clause, ClauseBase, Cnf, Lit};
use port_types::NoMemory;
use std::alloc::Global;
use std::test::Fail;

// The clauses over so many variables; those with other variables are left out.
fn cnf_of(alloc: Global, vars: usize, clauses: &[&[Lit]]) -> Result<Cnf, NoMemory> {
    let mut cnf = Cnf::new(alloc);
    for _ in 0..vars {
        cnf.new_var()?;
    }
    for clause in clauses {
        if known(clause, cnf.vars()) {
            cnf.add(clause)?;
        }
    }
    Ok(cnf)
}

fn chain(alloc: Global, row: Row) -> Result<Chain, NoMemory> {
    let Row(lits, first, steps) = row;
    let mut rest = Pivots::new(alloc);
    for (var, clause) in steps {
        rest.push(Pivot {
            var: *var,
            clause: *clause,
        })?;
    }
    Ok(Chain {
        clause: Clause::from_slice(alloc, lits)?,
        first,
        rest,
    })
}

const A: Lit = Lit {
    var: 0,
    positive: true,
};

const NOT_A: Lit = Lit {
    var: 0,
    positive: false,
};

const B: Lit = Lit {
    var: 1,
    positive: true,
};

const NOT_B: Lit = Lit {
    var: 1,
    positive: false,
};

const FAR: Lit = Lit {
    var: 9,
    positive: true,
};

// A log of two chains, each with its clause, its first clause and its steps, and whether it derives.
struct TwoChains {
    name: &'static str,
    next: Row,
    last: Row,
    derives: bool,
}

// A chain: its clause, its first clause and its steps.
#[derive(Clone, Copy)]
struct Row(&'static [Lit], usize, &'static [(usize, usize)]);

// They stand over {a, b}, {not a, b}, {not b}, {a, not a}, {b, b, not b}, with the numbers 0 to 4 and
// a, b for the variables 0 and 1 of three. The chains have the numbers 5 and 6.
const LOGS: [TwoChains; 9] = [
    TwoChains {
        name: "two steps",
        next: Row(&[B], 0, &[(0, 1)]),
        last: Row(&[], 5, &[(1, 2)]),
        derives: true,
    },
    TwoChains {
        name: "a literal twice",
        next: Row(&[B, B], 0, &[(0, 1)]),
        last: Row(&[], 5, &[(1, 2)]),
        derives: true,
    },
    TwoChains {
        name: "clauses with both signs",
        next: Row(&[B], 0, &[(0, 3), (0, 1), (1, 4)]),
        last: Row(&[], 5, &[(1, 2)]),
        derives: true,
    },
    TwoChains {
        name: "a later clause",
        next: Row(&[B], 0, &[(0, 6)]),
        last: Row(&[], 5, &[(1, 2)]),
        derives: false,
    },
    TwoChains {
        name: "a variable not there",
        next: Row(&[B], 0, &[(2, 1)]),
        last: Row(&[], 5, &[(1, 2)]),
        derives: false,
    },
    TwoChains {
        name: "the same sign on both sides",
        next: Row(&[A], 0, &[(1, 1)]),
        last: Row(&[], 0, &[(0, 1), (1, 2)]),
        derives: false,
    },
    TwoChains {
        name: "a literal too many",
        next: Row(&[B, NOT_A], 0, &[(0, 1)]),
        last: Row(&[], 0, &[(0, 1), (1, 2)]),
        derives: false,
    },
    TwoChains {
        name: "the pivot kept",
        next: Row(&[A, B], 0, &[(0, 1)]),
        last: Row(&[], 0, &[(0, 1), (1, 2)]),
        derives: false,
    },
    TwoChains {
        name: "not empty at the end",
        next: Row(&[], 0, &[(0, 1), (1, 2)]),
        last: Row(&[B], 0, &[(0, 1)]),
        derives: false,
    },
];

fn log_of(alloc: Global, next: Row, last: Row) -> Result<ChainLog, NoMemory> {
    let mut log = ChainLog::new(alloc);
    log.push(chain(alloc, next)?)?;
    log.push(chain(alloc, last)?)?;
    Ok(log)
}

#[test]
fn a_variable_and_its_negation(rt: HostRuntime) -> Result<(), Fail> {
    let alloc = rt.alloc();
    let cnf = cnf_of(alloc, 1, &[&[A], &[NOT_A]])?;
    let mut marks = Marks::new(alloc, cnf.vars())?;
    let mut log = ChainLog::new(alloc);
    assert!(rt; !check(&cnf, &log, &mut marks));
    log.push(chain(alloc, Row(&[], 0, &[(0, 1)]))?)?;
    assert!(rt; check(&cnf, &log, &mut marks));
    // the bench serves again
    assert!(rt; check(&cnf, &log, &mut marks));
    assert_eq!(rt; log.len(), 1);
    Ok(())
}

// On a bench of its own.
fn derives(alloc: Global, cnf: &Cnf, log: &ChainLog) -> Result<bool, NoMemory> {
    let mut marks = Marks::new(alloc, cnf.vars())?;
    Ok(check(cnf, log, &mut marks))
}

#[test]
fn logs_that_derive_and_logs_that_do_not(rt: HostRuntime) -> Result<(), Fail> {
    let alloc = rt.alloc();
    let cnf = cnf_of(
        alloc,
        3,
        &[&[A, B], &[NOT_A, B], &[NOT_B], &[A, NOT_A], &[B, B, NOT_B]],
    )?;
    for row in &LOGS {
        let log = log_of(alloc, row.next, row.last)?;
        assert_eq!(rt; derives(alloc, &cnf, &log)?, row.derives, "{}", row.name);
    }
    Ok(())
}
