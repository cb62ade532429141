//! Chains and logs of them: the types that `check` reads. Nothing here is checked.

use cnf::Clause;
use port_types::ListOf;

/// A step of a chain: the variable that is resolved on, and the number of the clause that is named.
#[derive(Clone, Copy, Debug, PartialEq, Eq)]
pub struct Pivot {
    pub var: usize,
    pub clause: usize,
}

/// Steps in order.
pub type Pivots = ListOf<Pivot>;

/// How a clause follows from clauses before it: from the clause numbered `first` by the steps of
/// `rest`, one resolution each.
#[derive(Debug, Drop)]
pub struct Chain {
    pub clause: Clause,
    pub first: usize,
    pub rest: Pivots,
}

/// Chains in order. Contracts see the list of them.
///
/// Clauses are numbered from 0 on, those of the `Cnf` first and then those of the chains.
pub type ChainLog = ListOf<Chain>;
