//! Atoms in clauses.
//!
//! Main function: `code_atom`. Touches the base that it is lent, and nothing else.

ghost use Rattle.std.specs.Prelude.{◌≡◌, ◌++◌, IfOk, OnOk, All, length, slice_index_or};
ghost use Rattle.typed_ltl.specs.Formulas.{proposition_of, choice_of};
ghost use Rattle.typed_ltl.specs.Traces.{assignment};
ghost use Rattle.typed_ltl.specs.Truth.{proposition_truth};
ghost use Rattle.cnf.specs.declared.lit.Lit.{Lit as LitValue};
ghost use Rattle.cnf.specs.Clauses.{Represents, IsConservative};
ghost use Rattle.state_coding.specs.Coded.{IsCoded};
ghost use Rattle.state_coding.specs.Codes.{IsCodable};
ghost use Rattle.state_coding.specs.States.{IsCodedState, HasBits, state_values};
ghost use Rattle.state_coding.specs.Atoms.{atom_coding, same_coding, port_names};
ghost use Rattle.state_coding.specs.Reads.{ReadsPorts, ReadsEnumeration};

use crate::compare::{code_at_most, code_equal, code_truth};
use crate::laws::atoms_are_right;
use crate::lists::StateBits;
use crate::names::{NamedBits, code_name, code_same_ports};
use crate::terms::{States, bits_of, code_term};
use cnf::{ClauseBase, Lit};
use port_types::{Name, NoMemory, PortId, PortType};
use std::alloc::Global;
use typed_ltl::{Atom, Pick, Ports};

/// The names of a port, none for one that is no enumeration.
fn names_of(ports: &Ports, port: PortId) -> &[Name]
    ensures { result.now ≡ port_names ports.now port.0 }
{
    match ports.as_slice().get(port.0 as usize) {
        Some(PortType::Enum(names)) => names.as_slice(),
        _ => &[],
    }
}

/// The bit of a boolean port.
fn only_bit(row: &[Lit]) -> Lit
    requires { length row.now ≡ 1 }
    ensures { (d : LitValue) → result ≡ slice_index_or row.now 0 d }
{
    row[0]
}

/// A literal that is "the two names are the same".
fn code_same<B: ClauseBase>(
    alloc: Global,
    base: &mut B,
    states: States<'_>,
    a: &Pick,
    b: &Pick,
) -> Result<Lit, NoMemory>
    requires ports { All IsCodable states.ports.now }
    requires now { HasBits (B.vars base.old) states.ports.now states.now.now }
    requires next { HasBits (B.vars base.old) states.ports.now states.next.now }
    requires left { ReadsEnumeration states.ports.now (choice_of a.now) }
    requires right { ReadsEnumeration states.ports.now (choice_of b.now) }
    ensures grows { IsConservative (B.vars base.old) (B.clauses base.old) (B.vars base.new) (B.clauses base.new) }
    ensures coded { IfOk result (λ lit. IsCoded (B.clauses base.old) (B.vars base.new) (B.clauses base.new) lit
        (same_coding states.entry.ports.now states.entry.now.now states.entry.next.now (B.vars base.old)
        (choice_of a.now) (choice_of b.now))) }
{
    match a {
        Pick::Name(x) => match b {
            Pick::Name(y) => code_truth(alloc, base, x.as_str() == y.as_str()),
            Pick::Port {
                port,
                next: is_next,
            } => {
                let row = bits_of(states.now, states.next, *port, *is_next);
                code_name(alloc, base, row, names_of(states.ports, *port), x)
            }
        },
        Pick::Port {
            port,
            next: is_next,
        } => {
            let x = NamedBits {
                names: names_of(states.ports, *port),
                row: bits_of(states.now, states.next, *port, *is_next),
            };
            match b {
                Pick::Name(y) => code_name(alloc, base, x.row, x.names, y),
                Pick::Port {
                    port,
                    next: is_next,
                } => {
                    let y = NamedBits {
                        names: names_of(states.ports, *port),
                        row: bits_of(states.now, states.next, *port, *is_next),
                    };
                    code_same_ports(alloc, base, x, y)
                }
            }
        }
    }
}

/// Codes an atom by its form.
fn code_form<B: ClauseBase>(
    alloc: Global,
    base: &mut B,
    states: States<'_>,
    atom: &Atom,
) -> Result<Lit, NoMemory>
    requires ports { All IsCodable states.ports.now }
    requires now { HasBits (B.vars base.old) states.ports.now states.now.now }
    requires next { HasBits (B.vars base.old) states.ports.now states.next.now }
    requires reads { ReadsPorts states.ports.now (proposition_of atom.now) }
    ensures grows { IsConservative (B.vars base.old) (B.clauses base.old) (B.vars base.new) (B.clauses base.new) }
    ensures coded { IfOk result (λ lit. IsCoded (B.clauses base.old) (B.vars base.new) (B.clauses base.new) lit
        (atom_coding states.entry.ports.now states.entry.now.now states.entry.next.now (B.vars base.old)
        (proposition_of atom.now))) }
{
    match atom {
        Atom::Port {
            port,
            next: is_next,
        } => Ok(only_bit(bits_of(states.now, states.next, *port, *is_next))),
        Atom::Equal(a, b) => {
            let x = code_term(alloc, base, states, a)?;
            let y = code_term(alloc, base, states, b)?;
            code_equal(alloc, base, &x, &y)
        }
        Atom::AtMost(a, b) => {
            let x = code_term(alloc, base, states, a)?;
            let y = code_term(alloc, base, states, b)?;
            code_at_most(alloc, base, &x, &y)
        }
        Atom::Same(a, b) => code_same(alloc, base, states, a, b),
    }
}

/// Codes an atom: a literal that is its truth value, where the ports are read in the states `now` and `next`.
///
/// Answers `NoMemory` too where the constants of a term add up to a number that 64 bits don't hold. Whatever the
/// answer, each older model is the front of a newer one.
pub fn code_atom<B: ClauseBase>(
    alloc: Global,
    base: &mut B,
    ports: &Ports,
    now: &StateBits,
    next: &StateBits,
    atom: &Atom,
) -> Result<Lit, NoMemory>
    requires ports { All IsCodable ports.now }
    requires now { IsCodedState (B.vars base.old) (B.clauses base.old) ports.now now.now }
    requires next { IsCodedState (B.vars base.old) (B.clauses base.old) ports.now next.now }
    requires reads { ReadsPorts ports.now (proposition_of atom.now) }
    ensures value { IfOk result (λ lit. Represents (B.vars base.new) (B.clauses base.new) lit
        (λ model. proposition_truth (assignment (state_values model ports.now now.now))
        (assignment (state_values model ports.now next.now)) (proposition_of atom.now))) }
    ensures grows { IsConservative (B.vars base.old) (B.clauses base.old) (B.vars base.new) (B.clauses base.new) }
    ensures answer { IfOk result (λ lit. lit
        ≡ (atom_coding ports.now now.now next.now (B.vars base.old) (proposition_of atom.now)).lit) }
    ensures vars { OnOk result (B.vars base.new
        ≡ (atom_coding ports.now now.now next.now (B.vars base.old) (proposition_of atom.now)).vars) }
    ensures clauses { OnOk result (B.clauses base.new ≡ B.clauses base.old
        ++ (atom_coding ports.now now.now next.now (B.vars base.old) (proposition_of atom.now)).clauses) }
{
    // a law, no code runs
    atoms_are_right();
    code_form(alloc, base, States { ports, now, next }, atom)
}
