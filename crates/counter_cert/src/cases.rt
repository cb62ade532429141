//! The clauses that say that the literals of some case hold all together, or those of none.
//!
//! Main functions: `add_some_case`, `no_case`. They touch the formula that they are lent, and memory.

ghost use Rattle.std.specs.Prelude.{◌≡◌, ◌<◌, ◌+◌, ◌∷◌, ◌++◌, [], All, IfOk, OnOk, length, map};
ghost use Rattle.cnf.specs.Clauses.{opposite};
ghost use Rattle.cnf.specs.Gates.{literal};
ghost use Rattle.counter_cert.specs.StartClauses.{implied_clauses, some_case_clauses};
ghost use Rattle.counter_cert.specs.StepClauses.{no_case_clauses};

use cnf::{Clause, ClauseBase, Cnf, Lit};
use port_types::NoMemory;
use std::alloc::Global;

/// The positive literal of a variable.
pub(crate) fn literal_of(var: usize) -> Lit
    ensures { result ≡ literal var }
{
    Lit {
        var,
        positive: true,
    }
}

/// Adds that a variable implies each of the literals.
fn add_implied(cnf: &mut Cnf, var: usize, lits: &[Lit]) -> Result<(), NoMemory>
    requires var { var < cnf.old.vars }
    requires lits { All (λ lit. lit.var < cnf.old.vars) lits.now }
    ensures vars { cnf.new.vars ≡ cnf.old.vars }
    ensures clauses { OnOk result (cnf.new.clauses ≡ cnf.old.clauses ++ implied_clauses var lits.now) }
{
    let off = literal_of(var).negated();
    for lit in lits {
        cnf.add(&[off, *lit])?;
    }
    Ok(())
}

/// Adds a variable that implies each literal of the case, and puts its literal at the end.
fn add_case(cnf: &mut Cnf, any: &mut Clause, case: &Clause) -> Result<(), NoMemory>
    requires { All (λ lit. lit.var < cnf.old.vars) case.now }
    ensures vars { OnOk result (cnf.new.vars ≡ cnf.old.vars + 1) }
    ensures clauses { OnOk result (cnf.new.clauses ≡ cnf.old.clauses ++ implied_clauses cnf.old.vars case.now) }
    ensures any { OnOk result (any.new ≡ any.old ++ literal cnf.old.vars ∷ []) }
{
    let var = cnf.new_var()?;
    add_implied(cnf, var, case.as_slice())?;
    any.push(literal_of(var))?;
    Ok(())
}

/// Adds that the literals of some case hold all together.
pub(crate) fn add_some_case(alloc: Global, cnf: &mut Cnf, cases: &[Clause]) -> Result<(), NoMemory>
    requires { All (All (λ lit. lit.var < cnf.old.vars)) cases.now }
    ensures vars { OnOk result (cnf.new.vars ≡ cnf.old.vars + length cases.now) }
    ensures clauses { OnOk result
        (cnf.new.clauses ≡ cnf.old.clauses ++ some_case_clauses cnf.old.vars cases.now) }
{
    let mut any = Clause::new(alloc);
    for case in cases {
        add_case(cnf, &mut any, case)?;
    }
    cnf.add(any.as_slice())?;
    Ok(())
}

/// The clause that some literal of a case does not hold.
fn opposites(alloc: Global, case: &Clause) -> Result<Clause, NoMemory>
    ensures { IfOk result (λ clause. clause ≡ map opposite case.now) }
{
    let mut clause = Clause::new(alloc);
    for lit in case.as_slice() {
        clause.push(lit.negated())?;
    }
    Ok(clause)
}

/// For each case the clause that some literal of it does not hold.
pub(crate) fn no_case(alloc: Global, cases: &[Clause]) -> Result<Vec<Clause>, NoMemory>
    ensures { IfOk result (λ clauses. clauses.items ≡ no_case_clauses cases.now) }
{
    let mut clauses = Vec::new(alloc);
    for case in cases {
        clauses.push(opposites(alloc, case)?)?;
    }
    Ok(clauses)
}
