//! Rows of bits compared with constants.
//!
//! Main functions: `gate_at_most_const`, `add_limit`, `constant_bits`. Touches the base that it is lent, and
//! nothing else.

ghost use Rattle.std.specs.Prelude.{◌≡◌, ◌+◌, ◌<◌, ◌^◌, OnErr, take, ◌∷◌, ◌++◌, [], ℕ, List, Bool, not, map, pos};
ghost use Rattle.std.specs.Prelude.{IfOk, OnOk, All, length, drop, int_le, true, ◌↔◌, IsTrue, nat_le};
ghost use Rattle.cnf.specs.Clauses.{opposite, lit_values, clauses_hold, Represents, IsConservative};
ghost use Rattle.cnf.specs.Gates.{literal};
ghost use Rattle.cnf.specs.Arithmetic.{signed_number};
ghost use Rattle.cnf.specs.Bounds.{binary_digits, constant_bits, has_places, binary_number, sign_first, limit_down};
ghost use Rattle.cnf.specs.Bounds.{limit_clauses, at_most_down, at_most_const_clauses};
ghost use Rattle.cnf.specs.Signs.{signed_by, signed_digit};

use crate::base::ClauseBase;
use crate::lit::Lit;
use port_types::NoMemory;
use std::alloc::Global;

/// A whole number as a sign and a magnitude: whether it is negative, and the number or -1 less it.
fn sign_and_magnitude(number: i64) -> (bool, u64)
    ensures number { number ≡ signed_by result.0 result.1 }
    ensures below { result.1 < 2 ^ 63 }
{
    if number < 0 {
        (true, (-1 - number).unsigned_abs())
    } else {
        (false, number.unsigned_abs())
    }
}

/// Whether a whole number has bits in two's complement at so many places.
pub fn has_places(places: usize, number: i64) -> bool
    ensures { result ≡ has_places places number }
{
    let (_, magnitude) = sign_and_magnitude(number);
    if places == 0 {
        number == 0
    } else if places > 63 {
        true
    } else {
        magnitude < 1u64 << (places - 1)
    }
}

/// A digit of the magnitude as a bit of the number.
fn signed_digit(negative: bool, digit: bool) -> bool
    ensures { result ≡ signed_digit negative digit }
{
    if negative { !digit } else { digit }
}

/// The bits of a whole number in two's complement, lowest first.
pub fn constant_bits(alloc: Global, number: i64, places: usize) -> Result<Vec<bool>, NoMemory>
    ensures bits { IfOk result (λ bits. bits.items ≡ constant_bits places number) }
    ensures value { IfOk result (λ bits. has_places places number ≡ true → signed_number bits.items ≡ number) }
{
    let (negative, magnitude) = sign_and_magnitude(number);
    let mut rest = magnitude;
    let mut bits = Vec::new(alloc);
    while bits.len() < places {
        let digit = rest % 2 == 1;
        bits.push(signed_digit(negative, digit))?;
        rest /= 2;
    }
    Ok(bits)
}

/// The literal of a row at a place counted from the highest down, that of the sign negated.
fn lit_down(row: &[Lit], i: usize) -> Lit
    requires { i < length row.now }
    ensures at { drop i (sign_first opposite row.now) ≡ result ∷ drop (i + 1) (sign_first opposite row.now) }
    ensures known { (n : ℕ) → All (λ lit. lit.var < n) row.now → result.var < n }
{
    if i == 0 {
        row[row.len() - 1].negated()
    } else {
        row[row.len() - 1 - i]
    }
}

/// The bit of a constant at a place counted from the highest down, that of the sign negated.
fn bit_down(bound: &[bool], i: usize) -> bool
    requires { i < length bound.now }
    ensures { drop i (sign_first not bound.now) ≡ result ∷ drop (i + 1) (sign_first not bound.now) }
{
    if i == 0 {
        !bound[bound.len() - 1]
    } else {
        bound[bound.len() - 1 - i]
    }
}

/// Adds the clause of one place, where there is one, and keeps what the place means for the lower ones.
fn limit_place<B: ClauseBase>(
    base: &mut B,
    less: &mut Vec<Lit>,
    lit: Lit,
    set: bool,
) -> Result<(), NoMemory>
    requires lit { lit.var < B.vars base.old }
    requires less { All (λ lit. lit.var < B.vars base.old) less.old.items }
    ensures vars { B.vars base.new ≡ B.vars base.old }
    ensures err { OnErr result (B.clauses base.new ≡ B.clauses base.old) }
    ensures less { OnOk result (All (λ lit. lit.var < B.vars base.old) less.new.items) }
    ensures ok { OnOk result ((added : List (List Lit)) × (B.clauses base.new ≡ B.clauses base.old ++ added)
        × ((row : List Lit) → (bound : List Bool) → limit_down less.old.items (lit ∷ row) (set ∷ bound)
        ≡ added ++ limit_down less.new.items row bound)) }
{
    less.push(lit.negated())?;
    if !set {
        base.add(less)?;
        less.pop();
    }
    Ok(())
}

/// Adds the clause of one place, and keeps what it means for the lower ones.
fn add_place<B: ClauseBase>(
    base: &mut B,
    greater: &mut Vec<Lit>,
    less: &mut Vec<Lit>,
    lit: Lit,
    set: bool,
) -> Result<(), NoMemory>
    requires lit { lit.var < B.vars base.old }
    requires greater { All (λ lit. lit.var < B.vars base.old) greater.old.items }
    requires less { All (λ lit. lit.var < B.vars base.old) less.old.items }
    ensures vars { B.vars base.new ≡ B.vars base.old }
    ensures err { OnErr result (B.clauses base.new ≡ B.clauses base.old) }
    ensures greater { OnOk result (All (λ lit. lit.var < B.vars base.old) greater.new.items) }
    ensures less { OnOk result (All (λ lit. lit.var < B.vars base.old) less.new.items) }
    ensures ok { OnOk result ((added : List (List Lit)) × (B.clauses base.new ≡ B.clauses base.old ++ added)
        × ((row : List Lit) → (bound : List Bool)
        → at_most_down greater.old.items less.old.items (lit ∷ row) (set ∷ bound)
        ≡ added ++ at_most_down greater.new.items less.new.items row bound)) }
{
    greater.push(lit)?;
    less.push(lit.negated())?;
    if set {
        base.add(greater)?;
        greater.pop();
    } else {
        base.add(less)?;
        less.pop();
    }
    Ok(())
}

/// A literal that is "the number of `row` is at most that of `bound`".
///
/// Both are in two's complement, lowest bit first; `bound` is a constant.
pub fn gate_at_most_const<B: ClauseBase>(
    alloc: Global,
    base: &mut B,
    row: &[Lit],
    bound: &[bool],
) -> Result<Lit, NoMemory>
    requires same { length row.now ≡ length bound.now }
    requires known { All (λ lit. lit.var < B.vars base.old) row.now }
    ensures value { IfOk result (λ c. Represents (B.vars base.new) (B.clauses base.new) c
        (λ model. int_le (signed_number (lit_values model row.now)) (signed_number bound.now))) }
    ensures grows { IsConservative (B.vars base.old) (B.clauses base.old) (B.vars base.new) (B.clauses base.new) }
    ensures answer { IfOk result (λ c. c ≡ literal (B.vars base.old)) }
    ensures vars { OnOk result (B.vars base.new ≡ B.vars base.old + 1) }
    ensures clauses { OnOk result (B.clauses base.new
        ≡ B.clauses base.old ++ at_most_const_clauses (B.vars base.old) row.now bound.now) }
{
    let c = Lit {
        var: base.new_var()?,
        positive: true,
    };
    let mut greater = Vec::new(alloc);
    greater.push(c)?;
    let mut less = Vec::new(alloc);
    less.push(c.negated())?;
    for i in 0..row.len() {
        let lit = lit_down(row, i);
        let set = bit_down(bound, i);
        add_place(base, &mut greater, &mut less, lit, set)?;
    }
    base.add(&greater)?;
    Ok(c)
}

/// Adds clauses that say that the number of `row` is at most that of `bound`.
///
/// Both are binary digits, lowest first; `bound` is a constant.
pub fn add_limit<B: ClauseBase>(
    alloc: Global,
    base: &mut B,
    row: &[Lit],
    bound: &[bool],
) -> Result<(), NoMemory>
    requires same { length row.now ≡ length bound.now }
    requires known { All (λ lit. lit.var < B.vars base.old) row.now }
    ensures vars { B.vars base.new ≡ B.vars base.old }
    ensures ok { OnOk result (B.clauses base.new ≡ B.clauses base.old ++ limit_clauses row.now bound.now) }
    ensures err { OnErr result ((added : List (List Lit)) × (rest : List (List Lit))
        × (B.clauses base.new ≡ B.clauses base.old ++ added) × (added ++ rest ≡ limit_clauses row.now bound.now)) }
    ensures value { OnOk result ((model : List Bool) → All (λ lit. lit.var < length model) row.now
        → clauses_hold model (limit_clauses row.now bound.now)
        ≡ nat_le (binary_number (lit_values model row.now)) (binary_number bound.now)) }
{
    let mut less = Vec::new(alloc);
    for i in 0..row.len() {
        let place = row.len() - 1 - i;
        limit_place(base, &mut less, row[place], bound[place])?;
    }
    Ok(())
}
