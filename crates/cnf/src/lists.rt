//! Gates over lists of literals: all of them, any of them.
//!
//! Main functions: `gate_all`, `gate_any`. Touches the base that it is lent, and nothing else.

ghost use Rattle.std.specs.Prelude.{◌≡◌, ◌+◌, ◌<◌, ◌++◌, IfOk, OnOk, All, map};
ghost use Rattle.std.specs.List.{list_any, list_all};
ghost use Rattle.cnf.specs.Clauses.{opposite, lit_holds, Represents, IsConservative};
ghost use Rattle.cnf.specs.Gates.{literal, all_clauses, any_clauses};

use crate::base::ClauseBase;
use crate::lit::Lit;
use port_types::NoMemory;
use std::alloc::Global;

/// A literal that is "all of the literals". Without literals it is true.
pub fn gate_all<B: ClauseBase>(alloc: Global, base: &mut B, lits: &[Lit]) -> Result<Lit, NoMemory>
    requires { All (λ lit. lit.var < B.vars base.old) lits.now }
    ensures value { IfOk result (λ c. Represents (B.vars base.new) (B.clauses base.new) c
        (λ model. list_all (lit_holds model) lits.now)) }
    ensures grows { IsConservative (B.vars base.old) (B.clauses base.old) (B.vars base.new) (B.clauses base.new) }
    ensures answer { IfOk result (λ c. c ≡ literal (B.vars base.old)) }
    ensures vars { OnOk result (B.vars base.new ≡ B.vars base.old + 1) }
    ensures clauses { OnOk result (B.clauses base.new ≡ B.clauses base.old ++ all_clauses (B.vars base.old) lits.now) }
{
    let c = Lit {
        var: base.new_var()?,
        positive: true,
    };
    let not_c = c.negated();
    let mut last = Vec::new(alloc);
    last.push(c)?;
    for lit in lits {
        last.push(lit.negated())?;
        base.add(&[not_c, *lit])?;
    }
    base.add(&last)?;
    Ok(c)
}

/// The opposites of the literals, in their order.
fn opposites(alloc: Global, lits: &[Lit]) -> Result<Vec<Lit>, NoMemory>
    ensures { IfOk result (λ others. others.items ≡ map opposite lits.now) }
{
    let mut others = Vec::new(alloc);
    for lit in lits {
        others.push(lit.negated())?;
    }
    Ok(others)
}

/// A literal that is "any of the literals". Without literals it is false.
pub fn gate_any<B: ClauseBase>(alloc: Global, base: &mut B, lits: &[Lit]) -> Result<Lit, NoMemory>
    requires { All (λ lit. lit.var < B.vars base.old) lits.now }
    ensures value { IfOk result (λ c. Represents (B.vars base.new) (B.clauses base.new) c
        (λ model. list_any (lit_holds model) lits.now)) }
    ensures grows { IsConservative (B.vars base.old) (B.clauses base.old) (B.vars base.new) (B.clauses base.new) }
    ensures answer { IfOk result (λ c. c ≡ opposite (literal (B.vars base.old))) }
    ensures vars { OnOk result (B.vars base.new ≡ B.vars base.old + 1) }
    ensures clauses { OnOk result (B.clauses base.new ≡ B.clauses base.old ++ any_clauses (B.vars base.old) lits.now) }
{
    let others = opposites(alloc, lits)?;
    let none = gate_all(alloc, base, &others)?;
    Ok(none.negated())
}
