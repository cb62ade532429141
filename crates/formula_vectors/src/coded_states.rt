//! The clauses of states and atoms, worked by hand: what the definitions of their coding say.

ghost use Rattle.std.specs.Prelude.{◌≡◌, [], ◌∷◌, List, IfOk, All};
ghost use Rattle.port_types.specs.declared.types.PortType.TheVariants as kind;
ghost use Rattle.port_types.specs.declared.types.PortType.{PortType as Kind};
ghost use Rattle.typed_ltl.specs.Formulas.{number_of, proposition_of};
ghost use Rattle.state_coding.specs.Codes.{IsCodable};
ghost use Rattle.state_coding.specs.Reads.{ReadsNumbers, ReadsPorts, HasKind, IsRange};

use cnf::{Clause, ClauseBase, Cnf, Lit, Model01};
use port_types::{NoMemory, PortId, PortType, Value};
use state_coding::{code_atom, code_state, decode, states_stay};
use std::alloc::Global;
use std::test::Fail;
use typed_ltl::{Atom, Ports, Term};

const NOT_0: Lit = Lit {
    var: 0,
    positive: false,
};

const NOT_1: Lit = Lit {
    var: 1,
    positive: false,
};

const NOT_2: Lit = Lit {
    var: 2,
    positive: false,
};

// Of the eight codes of three bits those from 5 on have bit 2, and bit 1 or bit 0. So five are left.
const FROM_0_TO_4: [&[Lit]; 2] = [&[NOT_2, NOT_1], &[NOT_2, NOT_0]];

/// Atoms over a port x now and next.
#[derive(Clone, Copy)]
enum Form {
    /// `x <= 0`
    AtMostZero,
    /// `x = 0`
    IsZero,
    /// `x = next(x)`
    Stays,
    /// `x <= next(x)`
    Grows,
    /// `x + 1 = next(x)`
    OneMore,
}

// For each form the variables and clauses of two states of a port and of the atom. A port of w bits that has a value
// for each code adds 2w variables and no clause with its two states. Then the forms add, in order: 1 variable and w + 1
// clauses; the same; w + 1 and 5w + 1; w and 6w - 3; 3w + 1 and 15w - 1.
const SIZES_OF_1_BIT: [(Form, usize, usize); 5] = [
    (Form::AtMostZero, 3, 2),
    (Form::IsZero, 3, 2),
    (Form::Stays, 4, 6),
    (Form::Grows, 3, 3),
    (Form::OneMore, 6, 14),
];

const SIZES_OF_2_BITS: [(Form, usize, usize); 5] = [
    (Form::AtMostZero, 5, 3),
    (Form::IsZero, 5, 3),
    (Form::Stays, 7, 11),
    (Form::Grows, 6, 9),
    (Form::OneMore, 11, 29),
];

const SIZES_OF_3_BITS: [(Form, usize, usize); 5] = [
    (Form::AtMostZero, 7, 4),
    (Form::IsZero, 7, 4),
    (Form::Stays, 10, 16),
    (Form::Grows, 9, 15),
    (Form::OneMore, 16, 44),
];

fn are(clauses: &[Clause], expected: &[&[Lit]]) -> bool {
    if clauses.len() != expected.len() {
        return false;
    }
    for i in 0..clauses.len() {
        if clauses[i].as_slice() != expected[i] {
            return false;
        }
    }
    true
}

/// The list of one range.
fn one_range(alloc: Global, lo: i32, hi: i32) -> Result<Ports, NoMemory>
    ensures { IfOk result (λ ports. ports ≡ kind.Range lo hi ∷ []) }
{
    let mut ports = Ports::new(alloc);
    ports.push(PortType::Range { lo, hi })?;
    Ok(ports)
}

/// A port, now or next.
fn read(port: PortId, next: bool) -> Term
    ensures { (ports : List Kind) → HasKind IsRange ports port.0 → ReadsNumbers ports (number_of result) }
{
    Term::Port { port, next }
}

fn number(number: i64) -> Term
    ensures { (ports : List Kind) → ReadsNumbers ports (number_of result) }
{
    Term::Const(number)
}

/// One more than port 0.
fn one_more(alloc: Global) -> Result<Term, NoMemory>
    ensures { IfOk result (λ sum. (ports : List Kind) → HasKind IsRange ports 0 → ReadsNumbers ports (number_of sum)) }
{
    let sum = Term::plus(alloc, read(PortId(0), false), number(1))?;
    Ok(sum)
}

/// The atom of a form.
fn atom_of(alloc: Global, form: Form) -> Result<Atom, NoMemory>
    ensures { IfOk result (λ atom. (ports : List Kind) → HasKind IsRange ports 0
        → ReadsPorts ports (proposition_of atom)) }
{
    match form {
        Form::AtMostZero => Ok(Atom::AtMost(read(PortId(0), false), number(0))),
        Form::IsZero => Ok(Atom::Equal(read(PortId(0), false), number(0))),
        Form::Stays => Ok(Atom::Equal(read(PortId(0), false), read(PortId(0), true))),
        Form::Grows => Ok(Atom::AtMost(read(PortId(0), false), read(PortId(0), true))),
        Form::OneMore => {
            let sum = one_more(alloc)?;
            Ok(Atom::Equal(sum, read(PortId(0), true)))
        }
    }
}

/// Two states of the ports and an atom over them, in clauses.
#[derive(Drop)]
struct Coded {
    cnf: Cnf,
    /// How many bits the port has in a state.
    bits: usize,
    lit: Lit,
}

fn in_clauses(alloc: Global, ports: &Ports, form: Form) -> Result<Coded, NoMemory>
    requires codable { All IsCodable ports.now }
    requires range { HasKind IsRange ports.now 0 }
{
    // a law, no code runs
    states_stay();
    let mut cnf = Cnf::new(alloc);
    let now = code_state(alloc, &mut cnf, ports)?;
    let next = code_state(alloc, &mut cnf, ports)?;
    let bits = now.row(0).len();
    let atom = atom_of(alloc, form)?;
    let lit = code_atom(alloc, &mut cnf, ports, &now, &next, &atom)?;
    Ok(Coded { cnf, bits, lit })
}

/// The truth value of a literal in the front of a model, none past its end.
fn value(model: &[bool], lit: Lit) -> Option<bool> {
    match model.get(lit.var) {
        Some(value) => Some(*value == lit.positive),
        None => None,
    }
}

/// Whether no clause fails in the front of a model.
fn fits(clauses: &[Clause], model: &[bool]) -> bool {
    for clause in clauses {
        if clause
            .as_slice()
            .iter()
            .all(|lit| value(model, *lit) == Some(false))
        {
            return false;
        }
    }
    true
}

/// Puts the binary digits of a number at the end, lowest first.
fn push_digits(model: &mut Vec<bool>, number: u32, places: usize) -> Result<(), NoMemory> {
    let mut rest = number;
    for _ in 0..places {
        model.push(rest % 2 == 1)?;
        rest /= 2;
    }
    Ok(())
}

/// The truth value of the atom where the port has these codes now and next.
///
/// None where the clauses do not allow them. Each further variable has the value that the clauses leave to it.
fn truth_at(alloc: Global, coded: &Coded, now: u32, next: u32) -> Result<Option<bool>, NoMemory> {
    let clauses = coded.cnf.clauses();
    let mut model = Vec::new(alloc);
    push_digits(&mut model, now, coded.bits)?;
    push_digits(&mut model, next, coded.bits)?;
    for _ in model.len()..coded.cnf.vars() {
        model.push(true)?;
        if !fits(clauses, &model) {
            model.pop();
            model.push(false)?;
        }
    }
    if fits(clauses, &model) {
        Ok(value(&model, coded.lit))
    } else {
        Ok(None)
    }
}

/// In how many pairs of codes the atom holds.
fn pairs_of(alloc: Global, coded: &Coded, codes: u32) -> Result<u32, NoMemory> {
    let mut pairs = 0u32;
    for x in 0..codes {
        for next in 0..codes {
            if truth_at(alloc, coded, x, next)? == Some(true) {
                pairs = pairs.saturating_add(1);
            }
        }
    }
    Ok(pairs)
}

/// Whether the forms have these sizes.
fn have_sizes(
    alloc: Global,
    ports: &Ports,
    sizes: &[(Form, usize, usize)],
) -> Result<bool, NoMemory>
    requires codable { All IsCodable ports.now }
    requires range { HasKind IsRange ports.now 0 }
{
    for i in 0..sizes.len() {
        let (form, vars, clauses) = sizes[i];
        let coded = in_clauses(alloc, ports, form)?;
        if coded.cnf.vars() != vars || coded.cnf.clauses().len() != clauses {
            return Ok(false);
        }
    }
    Ok(true)
}

/// Whether a state of one port with the values 0 to 4 has three variables and these clauses.
fn five_of_eight(alloc: Global) -> Result<bool, NoMemory> {
    let ports = one_range(alloc, 0, 4)?;
    let mut cnf = Cnf::new(alloc);
    let bits = code_state(alloc, &mut cnf, &ports)?;
    Ok(bits.len() == 1 && cnf.vars() == 3 && are(cnf.clauses(), &FROM_0_TO_4))
}

#[test]
fn five_of_eight_codes(rt: HostRuntime) -> Result<(), Fail> {
    assert!(rt; five_of_eight(rt.alloc())?);
    Ok(())
}

/// Whether a state of one port with the value 5 alone has no variable, and is read as 5.
fn one_value(alloc: Global) -> Result<bool, NoMemory> {
    let ports = one_range(alloc, 5, 5)?;
    let mut cnf = Cnf::new(alloc);
    let bits = code_state(alloc, &mut cnf, &ports)?;
    if cnf.vars() != 0 {
        return Ok(false);
    }
    let model = Model01::from_vec(Vec::new(alloc));
    let valuation = decode(alloc, &ports, &bits, &model)?;
    Ok(matches!(valuation.as_slice(), [Value::Int(5)]))
}

#[test]
fn a_port_of_one_value(rt: HostRuntime) -> Result<(), Fail> {
    assert!(rt; one_value(rt.alloc())?);
    Ok(())
}

fn one_bit_is_right(alloc: Global) -> Result<bool, NoMemory> {
    let ports = one_range(alloc, 0, 1)?;
    have_sizes(alloc, &ports, &SIZES_OF_1_BIT)
}

fn two_bits_are_right(alloc: Global) -> Result<bool, NoMemory> {
    let ports = one_range(alloc, 0, 3)?;
    have_sizes(alloc, &ports, &SIZES_OF_2_BITS)
}

fn three_bits_are_right(alloc: Global) -> Result<bool, NoMemory> {
    let ports = one_range(alloc, 0, 7)?;
    have_sizes(alloc, &ports, &SIZES_OF_3_BITS)
}

#[test]
fn sizes_of_atoms(rt: HostRuntime) -> Result<(), Fail> {
    assert!(rt; one_bit_is_right(rt.alloc())?);
    assert!(rt; two_bits_are_right(rt.alloc())?);
    assert!(rt; three_bits_are_right(rt.alloc())?);
    Ok(())
}

/// In how many pairs of values from 0 to 7 the second is one more.
fn pairs_of_one_more(alloc: Global) -> Result<u32, NoMemory> {
    let ports = one_range(alloc, 0, 7)?;
    let coded = in_clauses(alloc, &ports, Form::OneMore)?;
    pairs_of(alloc, &coded, 8)
}

#[test]
fn one_more_in_seven_pairs(rt: HostRuntime) -> Result<(), Fail> {
    assert_eq!(rt; pairs_of_one_more(rt.alloc())?, 7);
    Ok(())
}
