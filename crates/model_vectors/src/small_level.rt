//! The level of a small specification, worked by hand: its formulas and its size, its closure and its questions.

use crate::small_specification::small;
use connections::{LevelFormulas, size, substitute};
use core_ltl::{Node, Question};
use levels::{Level, levels};
use oss_base::{ComponentId, ItemId, SubId};
use port_types::{NoMemory, PortId, Set24};
use spec_model::{Spec, Target};
use std::test::Fail;
use typed_ltl::{Atom, Formula};

/// Whether the formula is the free port at a place.
fn is_port(formula: &Formula, place: u32) -> bool {
    match formula {
        Formula::Atom(Atom::Port { port, next }) => port.0 == place && !*next,
        _ => false,
    }
}

/// Whether the formulas of the level read these free ports.
fn read_free_ports(formulas: &LevelFormulas) -> bool {
    for part in formulas.parts.as_slice() {
        if !is_port(&part.assume, 0) || !is_port(&part.guarantee, 2) {
            return false;
        }
    }
    formulas.parts.len() == 1 && is_port(&formulas.guarantee, 2)
}

/// The place in the free order of the second port of the subcomponent.
fn place_of_output(spec: &Spec) -> Result<Option<usize>, NoMemory> {
    let order = spec.free_order(ComponentId(0))?;
    let output = Target {
        sub: Some(SubId(0)),
        port: PortId(1),
    };
    Ok(order.place(&output))
}

#[test]
fn a_level_over_its_free_ports(rt: HostRuntime) -> Result<(), Fail> {
    let alloc = rt.alloc();
    let spec = small(alloc)?;
    let formulas = substitute(alloc, &spec, ItemId(0))?;
    assert!(rt; read_free_ports(&formulas));
    assert_eq!(rt; size(&spec, ItemId(0)), 4);
    assert_eq!(rt; place_of_output(&spec)?, Some(2));
    Ok(())
}

/// Whether these are the nodes of a question, each with its sign.
fn are_signed(question: &Question, wanted: &[(u32, bool)]) -> bool {
    let signed = question.as_slice();
    signed.len() == wanted.len()
        && signed
            .iter()
            .zip(wanted)
            .all(|(s, w)| s.node.0 == w.0 && s.positive == w.1)
}

fn has_nodes(level: &Level) -> bool {
    match *level.closure().nodes() {
        [
            Node::True,
            Node::Atom(o),
            Node::Atom(i),
            Node::Not(n),
            Node::And(k, l),
            Node::Not(m),
        ] => { o.0 == 0 && i.0 == 1 && n.0 == 1 && k.0 == 2 && l.0 == 3 && m.0 == 4 }
        _ => false,
    }
}

fn has_atoms(level: &Level) -> bool {
    match level.closure().atoms() {
        [
            Atom::Port { port: o, next: _ },
            Atom::Port { port: i, next: _ },
        ] => o.0 == 1 && i.0 == 0,
        _ => false,
    }
}

/// Whether the level has these nodes and atoms, over two ports.
fn has_its_closure(level: &Level) -> bool {
    has_nodes(level) && has_atoms(level) && level.ports().len() == 2
}

/// Whether the questions of the level are these.
fn has_its_questions(level: &Level) -> Result<bool, NoMemory> {
    let entails = level.entails()?;
    let dropping = level.dropping(Set24::below(1))?;
    if level.parts.len() != 1 {
        return Ok(false);
    }
    let assumes = level.assumes(0)?;
    Ok(
        are_signed(&entails, &[(5, true), (0, true), (1, false)])
            && are_signed(&dropping, &[(0, true), (1, false)])
            && are_signed(&assumes, &[(0, true), (2, false)]),
    )
}

#[test]
fn a_level_has_its_closure_and_questions(rt: HostRuntime) -> Result<(), Fail> {
    let alloc = rt.alloc();
    let spec = small(alloc)?;
    let list = levels(alloc, &spec, 2)?;
    assert_eq!(rt; list.len(), 1);
    for level in list.as_slice() {
        assert!(rt; has_its_closure(level));
        assert!(rt; has_its_questions(level)?);
    }
    Ok(())
}
