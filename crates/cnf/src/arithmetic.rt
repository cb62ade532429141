//! Gates over rows of bits in two's complement: the comparison of two rows and their exact sum. They add variables and
//! clauses to a base.

ghost use Rattle.std.specs.Prelude.{◌≡◌, ◌+◌, ◌*◌, ◌<◌, ◌+ℤ◌, ◌∷◌, ◌++◌, ℕ, List, Bool, IfOk, OnOk, All, drop};
ghost use Rattle.std.specs.Prelude.{length, int_le};
ghost use Rattle.cnf.specs.Clauses.{lit_values, IsModel, Represents, IsConservative};
ghost use Rattle.cnf.specs.Gates.{literal, xor_clauses, majority_clauses};
ghost use Rattle.cnf.specs.Arithmetic.{signed_number, comparison_pairs, le_clauses, le_literal, sum_clauses, sum_bits};

use crate::base::ClauseBase;
use crate::bits::Bits;
use crate::gates::{gate_and, gate_majority, gate_xor};
use crate::lit::Lit;
use port_types::NoMemory;
use std::alloc::Global;

/// The bits of two rows at one place, which change sides at the last.
fn comparison_pair(a: &[Lit], b: &[Lit], place: usize) -> (Lit, Lit)
    requires within { place < length a.now }
    requires same { length a.now ≡ length b.now }
    ensures bits { drop place (comparison_pairs a.now b.now)
        ≡ result ∷ drop (place + 1) (comparison_pairs a.now b.now) }
    ensures known { (n : ℕ) → All (λ lit. lit.var < n) a.now → All (λ lit. lit.var < n) b.now
        → (result.0.var < n) × (result.1.var < n) }
{
    if place == a.len() - 1 {
        (b[place], a[place])
    } else {
        (a[place], b[place])
    }
}

/// A literal that is "the number of `a` is at most that of `b`".
///
/// Both are in two's complement, lowest bit first. The clauses are those of a chain of majority gates
/// that says from the lowest place on whether `a` is greater.
pub fn gate_le<B: ClauseBase>(base: &mut B, a: &[Lit], b: &[Lit]) -> Result<Lit, NoMemory>
    requires some { 0 < length a.now }
    requires same { length a.now ≡ length b.now }
    requires left { All (λ lit. lit.var < B.vars base.old) a.now }
    requires right { All (λ lit. lit.var < B.vars base.old) b.now }
    ensures value { IfOk result (λ c. Represents (B.vars base.new) (B.clauses base.new) c
        (λ model. int_le (signed_number (lit_values model a.now)) (signed_number (lit_values model b.now)))) }
    ensures grows { IsConservative (B.vars base.old) (B.clauses base.old) (B.vars base.new) (B.clauses base.new) }
    ensures answer { IfOk result (λ c. c ≡ le_literal (B.vars base.old) a.now) }
    ensures vars { OnOk result (B.vars base.new ≡ B.vars base.old + length a.now) }
    ensures clauses { OnOk result
        (B.clauses base.new ≡ B.clauses base.old ++ le_clauses (B.vars base.old) a.now b.now) }
{
    let (x, y) = comparison_pair(a, b, 0);
    let not_y = y.negated();
    let mut greater = gate_and(base, x, not_y)?;
    for place in 1..a.len() {
        let (x, y) = comparison_pair(a, b, place);
        let not_y = y.negated();
        greater = gate_majority(base, x, not_y, greater)?;
    }
    Ok(greater.negated())
}

/// What a full adder answers.
#[derive(Clone, Copy)]
struct Place {
    either: Lit,
    sum: Lit,
    carry: Lit,
}

/// The sum of three bits.
fn full_adder<B: ClauseBase>(base: &mut B, a: Lit, b: Lit, carry: Lit) -> Result<Place, NoMemory>
    requires first { a.var < B.vars base.old }
    requires second { b.var < B.vars base.old }
    requires third { carry.var < B.vars base.old }
    ensures grows { IsConservative (B.vars base.old) (B.clauses base.old) (B.vars base.new) (B.clauses base.new) }
    ensures either { IfOk result (λ place. place.either ≡ literal (B.vars base.old)) }
    ensures sum { IfOk result (λ place. place.sum ≡ literal (B.vars base.old + 1)) }
    ensures carry { IfOk result (λ place. place.carry ≡ literal (B.vars base.old + 2)) }
    ensures vars { OnOk result (B.vars base.new ≡ B.vars base.old + 3) }
    ensures clauses { let n = B.vars base.old in
        OnOk result (B.clauses base.new ≡ B.clauses base.old
        ++ (xor_clauses n a b ++ xor_clauses (n + 1) (literal n) carry ++ majority_clauses (n + 2) a b carry)) }
{
    let either = gate_xor(base, a, b)?;
    let sum = gate_xor(base, either, carry)?;
    let carry = gate_majority(base, a, b, carry)?;
    Ok(Place { either, sum, carry })
}

/// The bits of the sum of two numbers, one more than each of them has, so that the sum is exact.
///
/// All are in two's complement, lowest bit first. The clauses are those of a half adder at the lowest
/// place, a full adder at each further one, and one more sum of the two signs.
pub fn adder<B: ClauseBase>(
    alloc: Global,
    base: &mut B,
    a: &[Lit],
    b: &[Lit],
) -> Result<Bits, NoMemory>
    requires some { 0 < length a.now }
    requires same { length a.now ≡ length b.now }
    requires left { All (λ lit. lit.var < B.vars base.old) a.now }
    requires right { All (λ lit. lit.var < B.vars base.old) b.now }
    ensures value { IfOk result (λ sum. (model : List Bool) → IsModel (B.vars base.new) (B.clauses base.new) model
        → signed_number (lit_values model sum)
        ≡ signed_number (lit_values model a.now) +ℤ signed_number (lit_values model b.now)) }
    ensures grows { IsConservative (B.vars base.old) (B.clauses base.old) (B.vars base.new) (B.clauses base.new) }
    ensures known { IfOk result (λ sum. All (λ lit. lit.var < B.vars base.new) sum) }
    ensures len { IfOk result (λ sum. length sum ≡ length a.now + 1) }
    ensures answer { IfOk result (λ sum. sum ≡ sum_bits (B.vars base.old) a.now) }
    ensures vars { OnOk result (B.vars base.new ≡ B.vars base.old + 3 * length a.now) }
    ensures clauses { OnOk result
        (B.clauses base.new ≡ B.clauses base.old ++ sum_clauses (B.vars base.old) a.now b.now) }
{
    let mut sum = Bits::new(alloc);
    let mut differ = gate_xor(base, a[0], b[0])?;
    let mut carry = gate_and(base, a[0], b[0])?;
    sum.push(differ)?;
    for i in 1..a.len() {
        let place = full_adder(base, a[i], b[i], carry)?;
        sum.push(place.sum)?;
        differ = place.either;
        carry = place.carry;
    }
    let sign = gate_xor(base, differ, carry)?;
    sum.push(sign)?;
    Ok(sum)
}
