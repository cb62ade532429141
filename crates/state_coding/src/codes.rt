//! The bits of one port: how many, which codes stand for values, and which value a code stands for.
//!
//! Main functions: `code_port`, `value_of`. Touches the base that it is lent, and nothing else.

ghost use Rattle.std.specs.Prelude.{◌≡◌, ◌+◌, ◌*◌, ◌<◌, ◌≤◌, ◌^◌, ◌∷◌, ◌++◌, [], ℕ, List, Bool, true, IfOk, OnOk};
ghost use Rattle.std.specs.Prelude.{OnErr, All, Contains, length, if◌then◌else◌};
ghost use Rattle.port_types.specs.Types.{values};
ghost use Rattle.cnf.specs.Clauses.{IsConservative, lit_holds, lit_values, clauses_hold};
ghost use Rattle.cnf.specs.Bounds.{binary_number};
ghost use Rattle.state_coding.specs.Codes.{IsCodable, type_bits, code_clauses, value_at};
ghost use Rattle.state_coding.specs.States.{var_row};

use cnf::{Bits, ClauseBase, Lit, Model01, add_limit, constant_bits};
use port_types::{NoMemory, PortType, Value};
use std::alloc::Global;

/// The number of bits of a type's codes.
pub fn type_bits(kind: &PortType) -> usize
    requires { IsCodable kind.now }
    ensures bits { result ≡ type_bits kind.now }
    ensures enough { length (values kind.now) ≤ 2 ^ result }
    ensures least { (bits : ℕ) → length (values kind.now) ≤ 2 ^ bits → result ≤ bits }
{
    (32 - (kind.count() - 1).leading_zeros()) as usize
}

/// So many new variables, as a row of bits.
fn new_row<B: ClauseBase>(alloc: Global, base: &mut B, count: usize) -> Result<Bits, NoMemory>
    ensures answer { IfOk result (λ row. row ≡ var_row (B.vars base.old) count) }
    ensures vars { OnOk result (B.vars base.new ≡ B.vars base.old + count) }
    ensures clauses { B.clauses base.new ≡ B.clauses base.old }
    ensures more { B.vars base.old ≤ B.vars base.new }
{
    let mut row = Bits::new(alloc);
    for _ in 0..count {
        let var = base.new_var()?;
        row.push(Lit {
            var,
            positive: true,
        })?;
    }
    Ok(row)
}

/// Codes a port of this type: new bits, and clauses that exclude codes without a value.
pub fn code_port<B: ClauseBase>(
    alloc: Global,
    base: &mut B,
    kind: &PortType,
) -> Result<Bits, NoMemory>
    requires { IsCodable kind.now }
    ensures grows { IsConservative (B.vars base.old) (B.clauses base.old) (B.vars base.new) (B.clauses base.new) }
    ensures answer { IfOk result (λ row. row ≡ var_row (B.vars base.old) (type_bits kind.now)) }
    ensures vars { OnOk result (B.vars base.new ≡ B.vars base.old + type_bits kind.now) }
    ensures clauses { IfOk result (λ row. B.clauses base.new ≡ B.clauses base.old ++ code_clauses kind.now row) }
{
    // a law, no code runs
    cnf::gates_are_right();
    let row = new_row(alloc, base, type_bits(kind))?;
    let bound = constant_bits(alloc, i64::from(kind.count() - 1), row.len())?;
    add_limit(alloc, base, row.as_slice(), &bound)?;
    Ok(row)
}

/// Whether a literal holds in a model.
fn lit_value(model: &Model01, lit: Lit) -> bool
    requires { lit.var < length model.now }
    ensures { result ≡ lit_holds model.now lit }
{
    let value = model.value(lit.var);
    if lit.positive { value } else { !value }
}

/// The number with one more digit below.
fn next_number(number: u32, digit: bool) -> u32
    requires { number < 2 ^ 31 }
    ensures { result ≡ (if digit then 1 else 0) + 2 * number }
{
    if digit { 2 * number + 1 } else { 2 * number }
}

/// The number that a model gives to a row of binary digits.
fn number_of(row: &[Lit], model: &Model01) -> u32
    requires known { All (λ lit. lit.var < length model.now) row.now }
    requires few { length row.now ≤ 32 }
    ensures { result ≡ binary_number (lit_values model.now row.now) }
{
    let mut number = 0u32;
    let mut place = row.len();
    while place > 0 {
        place -= 1;
        number = next_number(number, lit_value(model, row[place]));
    }
    number
}

/// The value that a model gives to a port with these bits.
pub fn value_of(kind: &PortType, row: &[Lit], model: &Model01) -> Result<Value, NoMemory>
    requires kind { IsCodable kind.now }
    requires bits { length row.now ≡ type_bits kind.now }
    requires known { All (λ lit. lit.var < length model.now) row.now }
    requires holds { clauses_hold model.now (code_clauses kind.now row.now) ≡ true }
    ensures value { IfOk result (λ value. value ≡ value_at kind.now (lit_values model.now row.now)) }
    ensures typed { IfOk result (λ value. Contains (values kind.now) value) }
{
    // a law, no code runs
    cnf::gates_are_right();
    let value = kind.value(number_of(row, model))?;
    Ok(value.unwrap())
}
