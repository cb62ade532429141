//! Clauses of gates that were computed by hand: what the definitions of gates say.

ghost use Rattle.std.specs.Prelude.{◌≡◌, IfOk};

use cnf::{
    Clause, ClauseBase, Cnf, Lit, add_limit, constant_bits, gate_all, gate_and, gate_any,
    gate_at_most_const,
};
use port_types::NoMemory;
use std::alloc::Global;
use std::test::Fail;

const A: Lit = Lit {
    var: 0,
    positive: true,
};

const B: Lit = Lit {
    var: 1,
    positive: true,
};

const C: Lit = Lit {
    var: 2,
    positive: true,
};

const NOT_A: Lit = Lit {
    var: 0,
    positive: false,
};

const NOT_B: Lit = Lit {
    var: 1,
    positive: false,
};

const NOT_C: Lit = Lit {
    var: 2,
    positive: false,
};

/// A base of the variables a and b.
fn two_vars(alloc: Global) -> Result<Cnf, NoMemory>
    ensures { IfOk result (λ cnf. cnf.vars ≡ 2) }
{
    let mut cnf = Cnf::new(alloc);
    cnf.new_var()?;
    cnf.new_var()?;
    Ok(cnf)
}

fn are(clauses: &[Clause], expected: &[&[Lit]]) -> bool {
    if clauses.len() != expected.len() {
        return false;
    }
    for i in 0..clauses.len() {
        if clauses[i].as_slice() != expected[i] {
            return false;
        }
    }
    true
}

const AND: [&[Lit]; 3] = [&[NOT_C, A], &[NOT_C, NOT_B], &[C, NOT_A, B]];

/// Whether "a and not b" is c, with these clauses.
fn and_is_right(alloc: Global) -> Result<bool, NoMemory> {
    let mut cnf = two_vars(alloc)?;
    let lit = gate_and(&mut cnf, A, NOT_B)?;
    Ok(lit == C && are(cnf.clauses(), &AND))
}

/// Whether "all of a and not b" is the same.
fn all_is_right(alloc: Global) -> Result<bool, NoMemory> {
    let mut cnf = two_vars(alloc)?;
    let lit = gate_all(alloc, &mut cnf, &[A, NOT_B])?;
    Ok(lit == C && are(cnf.clauses(), &AND))
}

// "a or b" is the opposite of "not a and not b".
const NEITHER: [&[Lit]; 3] = [&[NOT_C, NOT_A], &[NOT_C, NOT_B], &[C, A, B]];

/// Whether "a or b" is the opposite of c, with these clauses.
fn any_is_right(alloc: Global) -> Result<bool, NoMemory> {
    let mut cnf = two_vars(alloc)?;
    let lit = gate_any(alloc, &mut cnf, &[A, B])?;
    Ok(lit == NOT_C && are(cnf.clauses(), &NEITHER))
}

#[test]
fn gates_of_two(rt: HostRuntime) -> Result<(), Fail> {
    assert!(rt; and_is_right(rt.alloc())?);
    assert!(rt; all_is_right(rt.alloc())?);
    assert!(rt; any_is_right(rt.alloc())?);
    Ok(())
}

// The number of the bits b, a is at most 0 where b is set, which has the sign, or a is not.
const AT_MOST_ZERO: [&[Lit]; 3] = [&[C, NOT_B], &[NOT_C, B, NOT_A], &[C, A]];

/// Whether "the number of the bits is at most 0" is c, with these clauses.
fn comparison_is_right(alloc: Global) -> Result<bool, NoMemory> {
    let mut cnf = two_vars(alloc)?;
    let zero = constant_bits(alloc, 0, 2)?;
    if zero.len() != 2 {
        return Ok(false);
    }
    let lit = gate_at_most_const(alloc, &mut cnf, &[A, B], &zero)?;
    Ok(lit == C && are(cnf.clauses(), &AT_MOST_ZERO))
}

// The digits b, a are at most 1 where b is not set.
const AT_MOST_ONE: [&[Lit]; 1] = [&[NOT_B]];

/// Whether the clauses of "the digits are at most 1" are these.
fn limit_is_right(alloc: Global) -> Result<bool, NoMemory> {
    let mut cnf = two_vars(alloc)?;
    add_limit(alloc, &mut cnf, &[A, B], &[true, false])?;
    Ok(are(cnf.clauses(), &AT_MOST_ONE))
}

#[test]
fn two_bits_and_constants(rt: HostRuntime) -> Result<(), Fail> {
    assert!(rt; comparison_is_right(rt.alloc())?);
    assert!(rt; limit_is_right(rt.alloc())?);
    Ok(())
}

/// How many literals a copy of "a or b" has.
fn copied_length(alloc: Global) -> Result<usize, NoMemory> {
    let clause = Clause::from_slice(alloc, &[A, B])?;
    let copy = clause.copy()?;
    Ok(copy.len())
}

#[test]
fn a_copy_of_a_clause(rt: HostRuntime) -> Result<(), Fail> {
    assert_eq!(rt; copied_length(rt.alloc())?, 2);
    Ok(())
}
