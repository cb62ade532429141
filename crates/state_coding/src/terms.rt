//! Terms in clauses.
//!
//! Main function: `code_term`. Touches the base that it is lent, and nothing else.

ghost use Rattle.std.specs.Prelude.{◌≡◌, ◌≤◌, IfOk, All, length, slice_index_or};
ghost use Rattle.cnf.specs.Clauses.{IsConservative};
ghost use Rattle.port_types.specs.declared.types.PortType.TheVariants as kind;
ghost use Rattle.typed_ltl.specs.Formulas.{number_of, Number};
ghost use Rattle.state_coding.specs.Coded.{IsTermCoded};
ghost use Rattle.state_coding.specs.Codes.{IsCodable};
ghost use Rattle.state_coding.specs.States.{HasBits};
ghost use Rattle.state_coding.specs.Numbers.{term_coding, port_bits, port_offset_row};
ghost use Rattle.state_coding.specs.Reads.{ReadsNumbers, HasKind, IsRange};

use crate::lists::StateBits;
use crate::sums::{TermBits, plus};
use cnf::{ClauseBase, Lit};
use port_types::{NoMemory, PortId, PortType};
use std::alloc::Global;
use typed_ltl::{Ports, Term};

/// The bits of a port now or next.
pub fn bits_of<'a>(
    now: &'a StateBits,
    next: &'a StateBits,
    port: PortId,
    is_next: bool,
) -> &'a [Lit]
    ensures { result.now ≡ port_bits now.now next.now port.0 is_next }
{
    if is_next {
        next.row(port.0 as usize)
    } else {
        now.row(port.0 as usize)
    }
}

/// The ports, and the bits of the states in which they are read.
#[derive(Clone, Copy)]
pub struct States<'a> {
    pub ports: &'a Ports,
    pub now: &'a StateBits,
    pub next: &'a StateBits,
}

/// A port as an offset and a row.
fn code_port_term(
    alloc: Global,
    states: States<'_>,
    port: PortId,
    is_next: bool,
) -> Result<TermBits, NoMemory>
    requires reads { HasKind IsRange states.ports.now port.0 }
    requires few { length (port_bits states.now.now states.next.now port.0 is_next) ≤ 32 }
    ensures { IfOk result (λ term. term ≡ port_offset_row (slice_index_or states.entry.ports.now port.0 kind.Bool)
        (port_bits states.entry.now.now states.entry.next.now port.0 is_next)) }
{
    let bits = bits_of(states.now, states.next, port, is_next);
    match &states.ports.as_slice()[port.0 as usize] {
        PortType::Range { lo, hi: _ } => TermBits::port(alloc, *lo, bits),
        _ => Ok(TermBits::constant(alloc, 0)),
    }
}

/// Codes the sum of two terms.
#[cycle(terms)]
fn code_sum<B: ClauseBase>(
    alloc: Global,
    base: &mut B,
    states: States<'_>,
    a: &Term,
    b: &Term,
) -> Result<TermBits, NoMemory>
    requires ports { All IsCodable states.ports.now }
    requires now { HasBits (B.vars base.old) states.ports.now states.now.now }
    requires next { HasBits (B.vars base.old) states.ports.now states.next.now }
    requires left { ReadsNumbers states.ports.now (number_of a.now) }
    requires right { ReadsNumbers states.ports.now (number_of b.now) }
    ensures grows { IsConservative (B.vars base.old) (B.clauses base.old) (B.vars base.new) (B.clauses base.new) }
    ensures coded { IfOk result (λ answer. IsTermCoded (B.clauses base.old) (B.vars base.new) (B.clauses base.new)
        answer (term_coding states.entry.ports.now states.entry.now.now states.entry.next.now (B.vars base.old)
        (Number.Sum (number_of a.now) (number_of b.now)))) }
{
    let x = code_term(alloc, base, states, a)?;
    let y = code_term(alloc, base, states, b)?;
    plus(alloc, base, &x, &y)
}

/// Codes the difference of two terms.
#[cycle(terms)]
fn code_difference<B: ClauseBase>(
    alloc: Global,
    base: &mut B,
    states: States<'_>,
    a: &Term,
    b: &Term,
) -> Result<TermBits, NoMemory>
    requires ports { All IsCodable states.ports.now }
    requires now { HasBits (B.vars base.old) states.ports.now states.now.now }
    requires next { HasBits (B.vars base.old) states.ports.now states.next.now }
    requires left { ReadsNumbers states.ports.now (number_of a.now) }
    requires right { ReadsNumbers states.ports.now (number_of b.now) }
    ensures grows { IsConservative (B.vars base.old) (B.clauses base.old) (B.vars base.new) (B.clauses base.new) }
    ensures coded { IfOk result (λ answer. IsTermCoded (B.clauses base.old) (B.vars base.new) (B.clauses base.new)
        answer (term_coding states.entry.ports.now states.entry.now.now states.entry.next.now (B.vars base.old)
        (Number.Difference (number_of a.now) (number_of b.now)))) }
{
    let x = code_term(alloc, base, states, a)?;
    let y = code_term(alloc, base, states, b)?;
    let y = y.opposite(alloc)?;
    plus(alloc, base, &x, &y)
}

/// Codes the opposite of a term.
#[cycle(terms)]
fn code_opposite<B: ClauseBase>(
    alloc: Global,
    base: &mut B,
    states: States<'_>,
    a: &Term,
) -> Result<TermBits, NoMemory>
    requires ports { All IsCodable states.ports.now }
    requires now { HasBits (B.vars base.old) states.ports.now states.now.now }
    requires next { HasBits (B.vars base.old) states.ports.now states.next.now }
    requires reads { ReadsNumbers states.ports.now (number_of a.now) }
    ensures grows { IsConservative (B.vars base.old) (B.clauses base.old) (B.vars base.new) (B.clauses base.new) }
    ensures coded { IfOk result (λ answer. IsTermCoded (B.clauses base.old) (B.vars base.new) (B.clauses base.new)
        answer (term_coding states.entry.ports.now states.entry.now.now states.entry.next.now (B.vars base.old)
        (Number.Opposite (number_of a.now)))) }
{
    let x = code_term(alloc, base, states, a)?;
    x.opposite(alloc)
}

/// Codes a term: its sums, from left to right.
#[cycle(terms)]
pub fn code_term<B: ClauseBase>(
    alloc: Global,
    base: &mut B,
    states: States<'_>,
    term: &Term,
) -> Result<TermBits, NoMemory>
    requires ports { All IsCodable states.ports.now }
    requires now { HasBits (B.vars base.old) states.ports.now states.now.now }
    requires next { HasBits (B.vars base.old) states.ports.now states.next.now }
    requires reads { ReadsNumbers states.ports.now (number_of term.now) }
    ensures grows { IsConservative (B.vars base.old) (B.clauses base.old) (B.vars base.new) (B.clauses base.new) }
    ensures coded { IfOk result (λ answer. IsTermCoded (B.clauses base.old) (B.vars base.new) (B.clauses base.new)
        answer (term_coding states.entry.ports.now states.entry.now.now states.entry.next.now (B.vars base.old)
        (number_of term.now))) }
{
    match term {
        Term::Const(number) => Ok(TermBits::constant(alloc, *number)),
        Term::Port { port, next } => code_port_term(alloc, states, *port, *next),
        Term::Plus(a, b) => code_sum(alloc, base, states, a.get(), b.get()),
        Term::Minus(a, b) => code_difference(alloc, base, states, a.get(), b.get()),
        Term::Negate(a) => code_opposite(alloc, base, states, a.get()),
    }
}
