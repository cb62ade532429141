//! The ports that the formulas of a level read: `read_ports`. May touch the allocator.

ghost use Rattle.std.specs.Prelude.{◌≡◌, ◌∷◌, ◌++◌, [], IfOk, OnOk};
ghost use Rattle.std.specs.List.{flat_map};
ghost use Rattle.typed_ltl.specs.Formulas.{meaning, number_of, choice_of, proposition_of};
ghost use Rattle.first_lasso.specs.FormulaPorts.{number_ports, choice_ports, proposition_ports, formula_ports};
ghost use Rattle.levels.specs.Levels.{level_reads};
ghost use Rattle.levels.specs.Steps.{formulas_meaning, part_reads};

use connections::{LevelFormulas, Part};
use port_types::{NoMemory, PortId};
use std::alloc::Global;
use typed_ltl::{Atom, Formula, Pick, Term};

fn put_port(ports: &mut Vec<u32>, port: PortId) -> Result<(), NoMemory>
    ensures { OnOk result (ports.new.items ≡ ports.old.items ++ port.0 ∷ []) }
{
    ports.push(port.0)?;
    Ok(())
}

#[cycle(terms)]
fn put_terms(ports: &mut Vec<u32>, a: &Term, b: &Term) -> Result<(), NoMemory>
    ensures { OnOk result (ports.new.items
        ≡ ports.old.items ++ (number_ports (number_of a.now) ++ number_ports (number_of b.now))) }
{
    put_term(ports, a)?;
    put_term(ports, b)?;
    Ok(())
}

#[cycle(terms)]
fn put_term(ports: &mut Vec<u32>, term: &Term) -> Result<(), NoMemory>
    ensures { OnOk result (ports.new.items ≡ ports.old.items ++ number_ports (number_of term.now)) }
{
    match term {
        Term::Const(_) => Ok(()),
        Term::Port { port, next: _ } => put_port(ports, *port),
        Term::Plus(a, b) => put_terms(ports, a.get(), b.get()),
        Term::Minus(a, b) => put_terms(ports, a.get(), b.get()),
        Term::Negate(a) => put_term(ports, a.get()),
    }
}

fn put_pick(ports: &mut Vec<u32>, pick: &Pick) -> Result<(), NoMemory>
    ensures { OnOk result (ports.new.items ≡ ports.old.items ++ choice_ports (choice_of pick.now)) }
{
    match pick {
        Pick::Name(_) => Ok(()),
        Pick::Port { port, next: _ } => put_port(ports, *port),
    }
}

fn put_picks(ports: &mut Vec<u32>, a: &Pick, b: &Pick) -> Result<(), NoMemory>
    ensures { OnOk result (ports.new.items
        ≡ ports.old.items ++ (choice_ports (choice_of a.now) ++ choice_ports (choice_of b.now))) }
{
    put_pick(ports, a)?;
    put_pick(ports, b)?;
    Ok(())
}

fn put_atom(ports: &mut Vec<u32>, atom: &Atom) -> Result<(), NoMemory>
    ensures { OnOk result (ports.new.items ≡ ports.old.items ++ proposition_ports (proposition_of atom.now)) }
{
    match atom {
        Atom::Port { port, next: _ } => put_port(ports, *port),
        Atom::Equal(a, b) => put_terms(ports, a, b),
        Atom::AtMost(a, b) => put_terms(ports, a, b),
        Atom::Same(a, b) => put_picks(ports, a, b),
    }
}

#[cycle(put)]
fn put_both(ports: &mut Vec<u32>, f: &Formula, g: &Formula) -> Result<(), NoMemory>
    ensures { OnOk result (ports.new.items
        ≡ ports.old.items ++ (formula_ports (meaning f.now) ++ formula_ports (meaning g.now))) }
{
    put_formula(ports, f)?;
    put_formula(ports, g)?;
    Ok(())
}

/// Puts each occurrence of a port, from left to right. The depth of the recursion is the formula's height.
#[cycle(put)]
fn put_formula(ports: &mut Vec<u32>, f: &Formula) -> Result<(), NoMemory>
    ensures { OnOk result (ports.new.items ≡ ports.old.items ++ formula_ports (meaning f.now)) }
{
    match f {
        Formula::True => Ok(()),
        Formula::False => Ok(()),
        Formula::Atom(atom) => put_atom(ports, atom),
        Formula::Not(f) => put_formula(ports, f.get()),
        Formula::And(f, g) => put_both(ports, f.get(), g.get()),
        Formula::Or(f, g) => put_both(ports, f.get(), g.get()),
        Formula::Implies(f, g) => put_both(ports, f.get(), g.get()),
        Formula::Iff(f, g) => put_both(ports, f.get(), g.get()),
        Formula::Then(f) => put_formula(ports, f.get()),
        Formula::Until(f, g) => put_both(ports, f.get(), g.get()),
        Formula::Releases(f, g) => put_both(ports, f.get(), g.get()),
        Formula::Future(f) => put_formula(ports, f.get()),
        Formula::Always(f) => put_formula(ports, f.get()),
        Formula::Never(f) => put_formula(ports, f.get()),
    }
}

fn put_part(ports: &mut Vec<u32>, part: &Part) -> Result<(), NoMemory>
    ensures { OnOk result (ports.new.items ≡ ports.old.items ++ part_reads part.now) }
{
    put_both(ports, &part.assume, &part.guarantee)
}

fn put_parts(ports: &mut Vec<u32>, parts: &[Part]) -> Result<(), NoMemory>
    ensures { OnOk result (ports.new.items ≡ ports.old.items ++ flat_map part_reads parts.now) }
{
    for part in parts {
        put_part(ports, part)?;
    }
    Ok(())
}

/// Each occurrence of a port in the formulas of a level.
pub(crate) fn read_ports(alloc: Global, formulas: &LevelFormulas) -> Result<Vec<u32>, NoMemory>
    ensures { IfOk result (λ ports. ports.items ≡ level_reads (formulas_meaning formulas.now)) }
{
    let mut ports = Vec::new(alloc);
    put_both(&mut ports, &formulas.assume, &formulas.guarantee)?;
    put_parts(&mut ports, formulas.parts.as_slice())?;
    Ok(ports)
}
