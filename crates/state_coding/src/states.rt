//! The bits of all ports: a state.
//!
//! Main functions: `code_state`, `decode`. Touches the base that it is lent, and nothing else.

ghost use Rattle.std.specs.Prelude.{◌≡◌, ◌+◌, ◌++◌, ℕ, List, Bool, true, IfOk, OnOk, All, length};
ghost use Rattle.port_types.specs.declared.types.Value.{Value as PortValue};
ghost use Rattle.cnf.specs.Clauses.{IsConservative, IsModel, clauses_hold};
ghost use Rattle.state_coding.specs.Codes.{IsCodable};
ghost use Rattle.state_coding.specs.States.{state_bits, state_width, state_clauses, state_values, IsValuation};
ghost use Rattle.state_coding.specs.States.{HasBits, IsCodedState};

use crate::codes::{code_port, value_of};
use crate::lists::StateBits;
use cnf::{ClauseBase, Model01};
use port_types::NoMemory;
use std::alloc::Global;
use typed_ltl::{Ports, Valuation};

/// Codes a state of these ports: new bits for each port, and clauses that exclude codes without a value.
///
/// In every model the bits stand for a valuation, and every older model has one with every valuation.
pub fn code_state<B: ClauseBase>(
    alloc: Global,
    base: &mut B,
    ports: &Ports,
) -> Result<StateBits, NoMemory>
    requires { All IsCodable ports.now }
    ensures state { IfOk result (λ bits. IsCodedState (B.vars base.new) (B.clauses base.new) ports.now bits) }
    ensures valuation { IfOk result (λ bits. (model : List Bool) → IsModel (B.vars base.new) (B.clauses base.new) model
        → IsValuation ports.now (state_values model ports.now bits)) }
    ensures every { IfOk result (λ bits. (model : List Bool) → IsModel (B.vars base.old) (B.clauses base.old) model
        → (valuation : List PortValue) → IsValuation ports.now valuation
        → (more : List Bool) × IsModel (B.vars base.new) (B.clauses base.new) (model ++ more)
        × (state_values (model ++ more) ports.now bits ≡ valuation)) }
    ensures grows { IsConservative (B.vars base.old) (B.clauses base.old) (B.vars base.new) (B.clauses base.new) }
    ensures answer { IfOk result (λ bits. bits ≡ state_bits (B.vars base.old) ports.now) }
    ensures vars { OnOk result (B.vars base.new ≡ B.vars base.old + state_width ports.now) }
    ensures clauses { IfOk result (λ bits. B.clauses base.new ≡ B.clauses base.old ++ state_clauses ports.now bits) }
{
    // a law, no code runs
    cnf::gates_are_right();
    let mut bits = StateBits::new(alloc);
    for i in 0..ports.len() {
        let row = code_port(alloc, base, &ports.as_slice()[i])?;
        bits.push(row)?;
    }
    Ok(bits)
}

/// The valuation that a model gives to a state.
pub fn decode(
    alloc: Global,
    ports: &Ports,
    bits: &StateBits,
    model: &Model01,
) -> Result<Valuation, NoMemory>
    requires ports { All IsCodable ports.now }
    requires bits { HasBits (length model.now) ports.now bits.now }
    requires holds { clauses_hold model.now (state_clauses ports.now bits.now) ≡ true }
    ensures values { IfOk result (λ valuation. valuation ≡ state_values model.now ports.now bits.now) }
    ensures typed { IfOk result (λ valuation. IsValuation ports.now valuation) }
{
    // a law, no code runs
    cnf::gates_are_right();
    let mut valuation = Valuation::new(alloc);
    for i in 0..ports.len() {
        let value = value_of(&ports.as_slice()[i], bits.row(i), model)?;
        valuation.push(value)?;
    }
    Ok(valuation)
}
