//! Watch lists of three clauses, worked by hand, and the steps that reading clauses takes.

use crate::known_variables::known;
use clause_links::ClauseLinks;
use cnf::Lit;
use port_types::{NoMemory, Steps};
use std::test::Fail;

/// The clauses `{not x, y}`, `{not x, not y}` and `{y, z}` over `x`, `y` and `z`: each literal as the
/// number of its variable and its sign.
const CLAUSES: [[(usize, bool); 2]; 3] = [
    [(0, false), (1, true)],
    [(0, false), (1, false)],
    [(1, true), (2, true)],
];

/// The first clause in the list of each literal: the last that came in with it.
const HEADS: [((usize, bool), Option<usize>); 6] = [
    ((0, true), None),
    ((0, false), Some(1)),
    ((1, true), Some(2)),
    ((1, false), Some(1)),
    ((2, true), Some(2)),
    ((2, false), None),
];

fn lit(row: (usize, bool)) -> Lit {
    Lit {
        var: row.0,
        positive: row.1,
    }
}

// Adds a clause where the conditions of `add_clause` hold, and says whether they do.
fn add(links: &mut ClauseLinks, lits: &[Lit]) -> Result<bool, NoMemory> {
    if lits.len() < 2 || lits[0].same(lits[1]) || !known(lits, links.vars()) {
        return Ok(false);
    }
    links.add_clause(lits)?;
    Ok(true)
}

#[test]
fn heads_of_three_clauses(rt: HostRuntime) -> Result<(), Fail> {
    let mut links = ClauseLinks::new(rt.alloc());
    links.add_vars(3)?;
    for [a, b] in &CLAUSES {
        assert!(rt; add(&mut links, &[lit(*a), lit(*b)])?);
    }
    for (row, head) in &HEADS {
        assert_eq!(rt; links.head(lit(*row)), *head);
    }
    Ok(())
}

#[test]
fn a_step_for_each_clause_read(rt: HostRuntime) -> Result<(), Fail> {
    let mut links = ClauseLinks::new(rt.alloc());
    links.add_vars(2)?;
    let lits = [lit((0, true)), lit((1, false))];
    assert!(rt; add(&mut links, &lits)?);
    assert_eq!(rt; links.len(), 1);
    let mut steps = Steps::start();
    assert_eq!(rt; links.lits(0, &mut steps), lits.as_slice());
    assert_eq!(rt; links.lits(0, &mut steps).len(), 2);
    assert_eq!(rt; steps.count(), 2);
    Ok(())
}
