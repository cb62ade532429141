//! References to clauses: where a clause that the search names stands. It only reads.

ghost use Rattle.std.specs.Prelude.{◌≡◌, ◌<◌};
ghost use Rattle.sat_core.specs.Search.{lists_of, HasClause, clause_of};

use cnf::{Clause, Lit};

/// Where a clause that the search names stands.
#[derive(Clone, Copy, Debug)]
pub enum ClauseRef {
    /// Among the clauses that were added.
    Added(usize),
    /// Among the clauses that were learnt.
    Learnt(usize),
    /// The unit clause of an assumption.
    Assumed(usize),
}

/// The clauses that a search may name: those added, those learnt, and the assumptions.
#[derive(Clone, Copy, Debug)]
pub struct Database<'a> {
    pub added: &'a [Clause],
    pub learnt: &'a [Clause],
    pub assumed: &'a [Lit],
}

/// The literals of a clause that a reason names.
pub fn lits<'a>(database: Database<'a>, reason: ClauseRef) -> &'a [Lit]
    requires { HasClause (lists_of database) reason }
    ensures { result.now ≡ clause_of (lists_of database.entry) reason }
{
    match reason {
        ClauseRef::Added(place) => database.added[place].as_slice(),
        ClauseRef::Learnt(place) => database.learnt[place].as_slice(),
        ClauseRef::Assumed(place) => &database.assumed[place..place + 1],
    }
}
