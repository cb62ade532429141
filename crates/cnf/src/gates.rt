//! Gates over single literals: and, exclusive or, majority. Each adds one variable and its clauses to a base.

ghost use Rattle.std.specs.Prelude.{◌≡◌, ◌+◌, ◌<◌, ◌&&◌, ◌++◌, ℕ, List, IfOk, OnOk, OnErr, All, take};
ghost use Rattle.cnf.specs.Clauses.{lit_holds, Represents, IsConservative};
ghost use Rattle.cnf.specs.Gates.{literal, xor, majority, and_clauses, xor_clauses, majority_clauses};

use crate::base::ClauseBase;
use crate::lit::Lit;
use port_types::NoMemory;

/// Adds clauses of one length in order.
fn add_all<B: ClauseBase, const N: usize>(
    base: &mut B,
    clauses: &[[Lit; N]],
) -> Result<(), NoMemory>
    requires { All (All (λ lit. lit.var < B.vars base.old)) clauses.now }
    ensures vars { B.vars base.new ≡ B.vars base.old }
    ensures ok { OnOk result (B.clauses base.new ≡ B.clauses base.old ++ clauses.now) }
    ensures err { OnErr result ((k : ℕ) × (B.clauses base.new ≡ B.clauses base.old ++ take k clauses.now)) }
{
    for clause in clauses {
        base.add(clause)?;
    }
    Ok(())
}

/// A literal that is "a and b".
pub fn gate_and<B: ClauseBase>(base: &mut B, a: Lit, b: Lit) -> Result<Lit, NoMemory>
    requires left { a.var < B.vars base.old }
    requires right { b.var < B.vars base.old }
    ensures value { IfOk result (λ c. Represents (B.vars base.new) (B.clauses base.new) c
        (λ model. lit_holds model a && lit_holds model b)) }
    ensures grows { IsConservative (B.vars base.old) (B.clauses base.old) (B.vars base.new) (B.clauses base.new) }
    ensures answer { IfOk result (λ c. c ≡ literal (B.vars base.old)) }
    ensures vars { OnOk result (B.vars base.new ≡ B.vars base.old + 1) }
    ensures clauses { OnOk result (B.clauses base.new ≡ B.clauses base.old ++ and_clauses (B.vars base.old) a b) }
{
    let c = Lit {
        var: base.new_var()?,
        positive: true,
    };
    let (not_a, not_b, not_c) = (a.negated(), b.negated(), c.negated());
    add_all(base, &[[not_c, a], [not_c, b]])?;
    base.add(&[c, not_a, not_b])?;
    Ok(c)
}

/// A literal that is "either a or b, and not both".
pub fn gate_xor<B: ClauseBase>(base: &mut B, a: Lit, b: Lit) -> Result<Lit, NoMemory>
    requires left { a.var < B.vars base.old }
    requires right { b.var < B.vars base.old }
    ensures value { IfOk result (λ c. Represents (B.vars base.new) (B.clauses base.new) c
        (λ model. xor (lit_holds model a) (lit_holds model b))) }
    ensures grows { IsConservative (B.vars base.old) (B.clauses base.old) (B.vars base.new) (B.clauses base.new) }
    ensures answer { IfOk result (λ c. c ≡ literal (B.vars base.old)) }
    ensures vars { OnOk result (B.vars base.new ≡ B.vars base.old + 1) }
    ensures clauses { OnOk result (B.clauses base.new ≡ B.clauses base.old ++ xor_clauses (B.vars base.old) a b) }
{
    let c = Lit {
        var: base.new_var()?,
        positive: true,
    };
    let (not_a, not_b, not_c) = (a.negated(), b.negated(), c.negated());
    add_all(
        base,
        &[
            [not_c, a, b],
            [not_c, not_a, not_b],
            [c, not_a, b],
            [c, a, not_b],
        ],
    )?;
    Ok(c)
}

/// A literal that is "at least two of a, b and c".
pub fn gate_majority<B: ClauseBase>(base: &mut B, a: Lit, b: Lit, c: Lit) -> Result<Lit, NoMemory>
    requires first { a.var < B.vars base.old }
    requires second { b.var < B.vars base.old }
    requires third { c.var < B.vars base.old }
    ensures value { IfOk result (λ v. Represents (B.vars base.new) (B.clauses base.new) v
        (λ model. majority (lit_holds model a) (lit_holds model b) (lit_holds model c))) }
    ensures grows { IsConservative (B.vars base.old) (B.clauses base.old) (B.vars base.new) (B.clauses base.new) }
    ensures answer { IfOk result (λ v. v ≡ literal (B.vars base.old)) }
    ensures vars { OnOk result (B.vars base.new ≡ B.vars base.old + 1) }
    ensures clauses { OnOk result
        (B.clauses base.new ≡ B.clauses base.old ++ majority_clauses (B.vars base.old) a b c) }
{
    let v = Lit {
        var: base.new_var()?,
        positive: true,
    };
    let (not_a, not_b, not_c, not_v) = (a.negated(), b.negated(), c.negated(), v.negated());
    add_all(
        base,
        &[
            [not_v, a, b],
            [not_v, a, c],
            [not_v, b, c],
            [v, not_a, not_b],
            [v, not_a, not_c],
            [v, not_b, not_c],
        ],
    )?;
    Ok(v)
}
