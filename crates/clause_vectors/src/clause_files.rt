//! Texts by hand: what they stand for, where they break the format, and what is written of a solver's answers.

use clause_log::{Chain, Pivot, Pivots};
use cnf::Clause;
use dimacs::{Fault, Reason, Stop, read, sat_text, trace_text};
use port_types::NoMemory;
use std::alloc::Global;
use std::test::Fail;

/// Three clauses, the second on two lines, with comments between.
const CLAUSES: &[u8] = b"c three\r\np cnf 3 3\r\n1 -3\t0 2\n3 -1 0\nc\n -2 0";

/// These clauses and a chain.
const TRACE: &[u8] = b"1 1 -3 0 0\n2 2 3 -1 0 0\n3 -2 0 0\n4 0 2 3 0\n";

/// Texts that break the format, each with the line and why.
const BROKEN: [(&[u8], usize, Reason); 11] = [
    (b"", 1, Reason::End),
    (b"p cnf 2\n", 2, Reason::End),
    (b"\np dnf 2 1\n1 0\n", 2, Reason::Header),
    (b"p cnf 2 -1\n", 1, Reason::Header),
    (b"p cnf 2 1\n1 +2 0\n", 2, Reason::Entry),
    (b"p cnf 2 1\n01 0\n", 2, Reason::Entry),
    (b"p cnf 2 1\n-0 0\n", 2, Reason::Entry),
    (b"p cnf 2 1\n1\n3 0\n", 3, Reason::Variable),
    (b"p cnf 2 1\n1 0\n\n-1\n", 4, Reason::Clauses),
    (b"p cnf 2 1\n1 -2\n", 3, Reason::End),
    (b"p cnf 2 2\n1 0\n", 3, Reason::End),
];

fn fault_of(alloc: Global, text: &[u8]) -> Option<Fault> {
    match read(alloc, text) {
        Err(Stop::Broken(fault)) => Some(fault),
        _ => None,
    }
}

/// The empty clause, from the second clause by the third.
fn chain(alloc: Global) -> Result<Chain, NoMemory> {
    let mut rest = Pivots::new(alloc);
    rest.push(Pivot { var: 1, clause: 2 })?;
    Ok(Chain {
        clause: Clause::new(alloc),
        first: 1,
        rest,
    })
}

#[test]
fn clauses_are_read(rt: HostRuntime) -> Result<(), Fail> {
    let alloc = rt.alloc();
    let log = [chain(alloc)?];
    match read(alloc, CLAUSES) {
        Ok(cnf) => assert_eq!(rt; trace_text(alloc, cnf.clauses(), &log)?.as_slice(), TRACE),
        Err(_) => assert!(rt; false),
    }
    Ok(())
}

#[test]
fn texts_break_where_they_do(rt: HostRuntime) -> Result<(), Fail> {
    for (text, line, reason) in BROKEN {
        let fault = Fault { line, reason };
        assert_eq!(rt; fault_of(rt.alloc(), text), Some(fault));
    }
    Ok(())
}

#[test]
fn models_are_written(rt: HostRuntime) -> Result<(), Fail> {
    let text = sat_text(rt.alloc(), &[true, false])?;
    assert_eq!(rt; text.as_slice(), b"s SATISFIABLE\nv 1 -2 0\n".as_slice());
    Ok(())
}
